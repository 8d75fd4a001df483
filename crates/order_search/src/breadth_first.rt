//! The search.

ghost use Rattle.std.specs.Prelude.{◌≡◌, ◌+◌, ◌*◌, ◌≤◌, ◌<◌, ◌^◌, length, map, IfNone, IfOk, OnOk, if◌then◌else◌};
ghost use Rattle.std.specs.List.{All};
ghost use Rattle.order_search.specs.Numbers.{node_at};
ghost use Rattle.order_search.specs.Paths.{HasEdgeFault};
ghost use Rattle.order_search.specs.Routes.{is_none};
ghost use Rattle.order_search.specs.SearchAnswers.{AnswersOf, IsUnderWay, PassesEdges, Progress, Visits};
ghost use Rattle.order_search.specs.Views.{IsJudged, edge_view};

use crate::graph::{Edge, Graph};
use crate::orders::count_orders;
use crate::reached::Reached;
use crate::trail::{Passed, Trail, pass};
use std::alloc::{AllocError, Global};

/// The answer of a search.
#[derive(Drop)]
pub enum SearchAnswer<L, F> {
    /// The labels of the first path, in the order of the search, that ends in a fault, and the fault. No shorter path
    /// ends in a fault.
    Found { labels: Vec<L>, fault: F },
    /// No path ends in a fault; this was reached.
    Counted(Reached),
    /// More nodes than the limit are reached, before any fault is.
    TooMany,
}

/// Visits the edges of the node with the number `at`, and returns an answer if that ends the search.
fn go_through<G: Graph>(
    alloc: Global,
    graph: &G,
    trail: &mut Trail<G::Label>,
    at: u32,
    edges: Vec<Edge<G::Label, G::Fault>>,
    most: u32,
) -> Result<Option<SearchAnswer<G::Label, G::Fault>>, AllocError>
    requires inside { at < length trail.old.nodes }
    requires edges { map edge_view edges.items ≡ G.leads graph.now (node_at trail.old.nodes at) }
    requires judged { All (IsJudged (HasEdgeFault (G.wrong graph.now) (G.flawed graph.now) (node_at trail.old.nodes at))) edges.items }
    requires nodes { All (λ edge. IfNone edge.fault (G.is_node graph.now edge.node.items)) edges.items }
    requires under_way { IsUnderWay (G.is_node graph.now) (G.leads graph.now) (G.wrong graph.now) (G.flawed graph.now) (node_at trail.old.nodes 0) most trail.old.nodes trail.old.entered.items trail.old.rows at 0 }
    ensures { IfOk result (PassesEdges (G.is_node graph.now) (G.leads graph.now) (G.wrong graph.now) (G.flawed graph.now) most trail.old.nodes trail.new.nodes trail.new.entered.items trail.new.rows at) }
{
    let mut row = Vec::new(alloc);
    for edge in edges {
        let label = edge.label;
        let number = match pass(alloc, graph, trail, at, edge)? {
            Passed::Fault(fault) => {
                let labels = trail.labels(alloc, at, label)?;
                return Ok(Some(SearchAnswer::Found { labels, fault }));
            }
            Passed::Node(number) => number,
        };
        if trail.nodes.len() > most as usize {
            return Ok(Some(SearchAnswer::TooMany));
        }
        row.push(number)?;
    }
    trail.rows.push(&row)?;
    Ok(None)
}

/// How many edges leave the nodes that were visited, and how many of these nodes have no outgoing edge.
#[derive(Drop)]
struct Totals {
    edges: u64,
    ends: u32,
}

impl Totals {
    /// The totals with one more node and its edges.
    fn with<L, F>(&self, edges: &Vec<Edge<L, F>>) -> Totals
        requires edges { self.now.edges + length edges.now.items < 2 ^ 64 }
        requires ends { self.now.ends + 1 < 2 ^ 32 }
        ensures edges { result.edges ≡ self.now.edges + length edges.now.items }
        ensures ends { result.ends ≡ self.now.ends + (if is_none edges.now.items then 1 else 0) }
    {
        let more = edges.len() as u64;
        let ends = if more == 0 { self.ends + 1 } else { self.ends };
        Totals {
            edges: self.edges + more,
            ends,
        }
    }
}

/// Visits the edges of the node with the number `at`, and adds them to the totals, or returns an answer.
fn visit<G: Graph>(
    alloc: Global,
    graph: &mut G,
    trail: &mut Trail<G::Label>,
    totals: &mut Totals,
    at: u32,
    most: u32,
) -> Result<Option<SearchAnswer<G::Label, G::Fault>>, AllocError>
    requires inside { at < length trail.old.nodes }
    requires progress { Progress (G.is_node graph.old) (G.leads graph.old) (G.wrong graph.old) (G.flawed graph.old) (node_at trail.old.nodes 0) most trail.old.nodes trail.old.entered.items trail.old.rows at totals.old.edges totals.old.ends }
    ensures visits { IfOk result (Visits (G.is_node graph.old) (G.leads graph.old) (G.wrong graph.old) (G.flawed graph.old) most trail.old.nodes trail.new.nodes trail.new.entered.items trail.new.rows at totals.new.edges totals.new.ends) }
    ensures graph { OnOk result (graph.new ≡ graph.old) }
{
    let edges = graph.edges(alloc, trail.nodes.get(at as usize))?;
    let sums = totals.with(&edges);
    *totals = sums;
    go_through(alloc, &*graph, trail, at, edges, most)
}

/// Searches a graph from a node, breadth first: the nodes in the order in which they were first reached, and the edges
/// of each in their order. When an edge is visited, the edge is tested first, then the node that it leads to, if that
/// is new, and then whether more than `most` nodes are reached. The first fault ends the search. The graph is as
/// before.
pub fn search<G: Graph>(
    alloc: Global,
    graph: &mut G,
    first: Vec<u8>,
    most: u32,
) -> Result<SearchAnswer<G::Label, G::Fault>, AllocError>
    requires node { G.is_node graph.old first.items }
    requires some { 1 ≤ most }
    ensures answer { IfOk result (AnswersOf (G.is_node graph.old) (G.leads graph.old) (G.wrong graph.old) (G.flawed graph.old) first.items most) }
    ensures graph { OnOk result (graph.new ≡ graph.old) }
{
    let mut trail = Trail::new(alloc, first)?;
    let mut totals = Totals { edges: 0, ends: 0 };
    let mut at = 0u32;
    while (at as usize) < trail.nodes.len() {
        if let Some(answer) = visit(alloc, graph, &mut trail, &mut totals, at, most)? {
            return Ok(answer);
        }
        at += 1;
    }
    let Trail {
        nodes,
        entered,
        rows,
    } = trail;
    drop(entered);
    let orders = count_orders(alloc, &rows)?;
    let Totals { edges, ends } = totals;
    Ok(SearchAnswer::Counted(Reached {
        nodes,
        rows,
        edges,
        ends,
        orders,
    }))
}
