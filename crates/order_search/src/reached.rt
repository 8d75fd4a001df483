//! What a search has reached.

ghost use Rattle.std.specs.Prelude.{◌≡◌, ◌<◌, length, map, IfOk, OnOk};
ghost use Rattle.std.specs.List.{All, zip};
ghost use Rattle.order_search.specs.Numbers.{node_at};
ghost use Rattle.order_search.specs.Rows.{AreNumbered, AreRows};
ghost use Rattle.order_search.specs.Views.{number_edge};

use crate::graph::{Edge, Graph};
use crate::node_list::NodeList;
use crate::orders::Orders;
use crate::rows::Rows;
use std::alloc::{AllocError, Global};
use std::marker::Model;

/// The nodes that a search has reached, in the order in which it first reached them; to which nodes the edges of each
/// lead; the number of edges; the number of nodes without outgoing edges; and the number of routes that lead to these.
#[derive(Drop)]
pub struct Reached {
    pub(crate) nodes: NodeList,
    pub(crate) rows: Rows<u32>,
    pub(crate) edges: u64,
    pub(crate) ends: u32,
    pub(crate) orders: Orders,
}

impl Model for Reached {
    ghost use Rattle.order_search.specs.ReachedGraph.{ReachedGraph};

    ghost Value = { ReachedGraph };

    ghost view = { λ reached. record { nodes = reached.nodes; rows = reached.rows; edges = reached.edges; ends = reached.ends; orders = reached.orders } };
}

/// An edge: its label, and the number of the node that it leads to.
#[derive(Drop)]
pub struct NumberedEdge<L> {
    pub label: L,
    pub to: u32,
}

/// The labels of edges with the numbers of the nodes that they lead to.
fn numbered<L: Copy + Drop, F: Drop>(
    alloc: Global,
    edges: Vec<Edge<L, F>>,
    row: &[u32],
) -> Result<Vec<NumberedEdge<L>>, AllocError>
    ensures { IfOk result (λ numbered. numbered.items ≡ map number_edge (zip edges.items row.now)) }
{
    edges
        .into_iter()
        .zip(row.iter().copied())
        .map(|(edge, to)| NumberedEdge {
            label: edge.label,
            to,
        })
        .collect(alloc)
}

impl Reached {
    /// How many nodes were reached.
    pub fn states(&self) -> usize
        ensures { result ≡ length self.now.nodes }
    {
        self.nodes.len()
    }

    /// How many edges leave them.
    pub fn edges(&self) -> u64
        ensures { result ≡ self.now.edges }
    {
        self.edges
    }

    /// How many of them have no outgoing edge.
    pub fn ends(&self) -> u32
        ensures { result ≡ self.now.ends }
    {
        self.ends
    }

    /// How many routes lead from the first of them to these.
    pub fn orders(&self) -> Orders
        ensures { result ≡ self.now.orders }
    {
        self.orders
    }

    /// The edges that leave the node with a number, in their order.
    pub fn edges_of<G: Graph>(
        &self,
        alloc: Global,
        graph: &mut G,
        number: usize,
    ) -> Result<Vec<NumberedEdge<G::Label>>, AllocError>
        requires inside { number < length self.now.nodes }
        requires many { length self.now.rows ≡ length self.now.nodes }
        requires nodes { All (G.is_node graph.old) self.now.nodes }
        requires rows { AreRows (G.leads graph.old) self.now.nodes self.now.rows }
        ensures edges { IfOk result (λ edges. AreNumbered self.now.nodes edges.items (G.leads graph.old (node_at self.now.nodes number))) }
        ensures graph { OnOk result (graph.new ≡ graph.old) }
    {
        let edges = graph.edges(alloc, self.nodes.get(number))?;
        numbered(alloc, edges, self.rows.row(number))
    }
}
