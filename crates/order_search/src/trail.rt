//! The nodes that a search has reached, and how it first reached each.

ghost use Rattle.std.specs.Prelude.{◌≡◌, ◌≤◌, ◌<◌, ◌^◌, ℕ, [], ◌∷◌, length, slice_get, Some, IfOk, OnOk};
ghost use Rattle.order_search.specs.Exploring.{EndsWithLabel, GoesAlong, entered_if};
ghost use Rattle.order_search.specs.Numbers.{node_at};
ghost use Rattle.order_search.specs.Paths.{HasEdgeFault};
ghost use Rattle.order_search.specs.Views.{IsJudged, edge_view};

use crate::graph::{Edge, Graph};
use crate::node_list::NodeList;
use crate::rows::Rows;
use std::alloc::{AllocError, Global};

/// The edge by which a node was first reached: the number of the node that it leaves, and its label.
#[derive(Drop)]
pub(crate) struct Entered<L> {
    pub(crate) from: u32,
    pub(crate) label: L,
}

/// The nodes that were reached, how each except the first was, and for those that were visited the numbers of the nodes
/// to which their edges lead.
#[derive(Drop)]
pub(crate) struct Trail<L> {
    pub(crate) nodes: NodeList,
    pub(crate) entered: Vec<Entered<L>>,
    pub(crate) rows: Rows<u32>,
}

/// The result of visiting an edge.
#[derive(Drop)]
pub(crate) enum Passed<F> {
    /// It has this fault.
    Fault(F),

    /// It leads to the node with this number.
    Node(u32),
}

impl<L: Copy + Drop> Trail<L> {
    /// Only the first node.
    pub(crate) fn new(alloc: Global, first: Vec<u8>) -> Result<Trail<L>, AllocError>
        ensures nodes { IfOk result (λ trail. trail.nodes ≡ first.items ∷ []) }
        ensures entered { IfOk result (λ trail. trail.entered.items ≡ []) }
        ensures rows { IfOk result (λ trail. trail.rows ≡ []) }
    {
        let mut nodes = NodeList::new(alloc)?;
        nodes.add(alloc, &first)?;
        Ok(Trail {
            nodes,
            entered: Vec::new(alloc),
            rows: Rows::new(alloc),
        })
    }

    /// Notes how the newest node was reached, if it is new.
    fn enter(&mut self, is_new: bool, by: Entered<L>) -> Result<(), AllocError>
        ensures nodes { self.new.nodes ≡ self.old.nodes }
        ensures rows { self.new.rows ≡ self.old.rows }
        ensures entered { OnOk result (self.new.entered.items ≡ entered_if is_new self.old.entered.items by) }
    {
        if is_new {
            self.entered.push(by)?;
        }
        Ok(())
    }

    /// The labels by which the node with a number was reached, and one more.
    pub(crate) fn labels(&self, alloc: Global, number: u32, label: L) -> Result<Vec<L>, AllocError>
        requires earlier { (k : ℕ) (by : _) → slice_get self.now.entered.items k ≡ Some by → by.from ≤ k }
        requires inside { number ≤ length self.now.entered.items }
        ensures { IfOk result (λ labels. EndsWithLabel self.now.entered.items number label labels.items) }
    {
        let mut labels = Vec::new(alloc);
        labels.push(label)?;
        let mut at = number as usize;
        while at > 0 {
            let by = &self.entered[at - 1];
            labels.push(by.label)?;
            at = by.from as usize;
        }
        labels.reverse();
        Ok(labels)
    }
}

/// Visits an edge of the node with the number `at`, and returns its fault, or the number of the node that it leads to.
#[tactic(auto, unfolding(crate::specs::Exploring::GoesAlong))]
pub(crate) fn pass<G: Graph>(
    alloc: Global,
    graph: &G,
    trail: &mut Trail<G::Label>,
    at: u32,
    edge: Edge<G::Label, G::Fault>,
) -> Result<Passed<G::Fault>, AllocError>
    requires few { length trail.old.nodes < 2 ^ 32 }
    requires judged { IsJudged (HasEdgeFault (G.wrong graph.now) (G.flawed graph.now) (node_at trail.old.nodes at)) edge }
    ensures passed { IfOk result (GoesAlong (G.wrong graph.now) (G.flawed graph.now) trail.old.nodes trail.new.nodes trail.old.entered.items trail.new.entered.items at (edge_view edge)) }
    ensures rows { OnOk result (trail.new.rows ≡ trail.old.rows) }
{
    let Edge { label, fault, node } = edge;
    if let Some(fault) = fault {
        return Ok(Passed::Fault(fault));
    }
    let place = trail.nodes.add(alloc, &node)?;
    trail.enter(place.is_new, Entered { from: at, label })?;
    Ok(Passed::Node(place.number as u32))
}
