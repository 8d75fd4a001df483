//! Graphs whose nodes are byte strings.

ghost use Rattle.std.specs.Prelude.{◌≡◌, ◌<◌, ◌^◌, ℕ, List, map, length, IfNone, IfOk, OnOk};
ghost use Rattle.std.specs.List.{All};
ghost use Rattle.order_search.specs.Paths.{EdgeView, HasEdgeFault};
ghost use Rattle.order_search.specs.Views.{IsJudged, edge_view};

use std::alloc::{AllocError, Global};

/// An edge: its label, the fault of visiting it, if there is one, and the node that it leads to.
#[derive(Drop)]
pub struct Edge<L, F> {
    pub label: L,
    pub fault: Option<F>,
    pub node: Vec<u8>,
}

/// A directed graph whose edges and nodes may have faults. A call may use memory of the graph's own, and leaves the graph as
/// it was.
pub trait Graph {
    /// The name of an edge.
    type Label: Copy + Drop;

    /// What may be wrong with an edge or a node.
    type Fault: Copy + Drop;

    /// The byte strings that are nodes.
    ghost is_node: { Self → List ℕ → Type 0 };

    /// The edges that leave a node, in their order.
    ghost leads: { Self → List ℕ → List (EdgeView Self.Label) };

    /// What is wrong with an edge that leaves a node.
    ghost wrong: { Self → List ℕ → EdgeView Self.Label → Self.Fault → Type 0 };

    /// What is wrong with a node.
    ghost flawed: { Self → List ℕ → Self.Fault → Type 0 };

    /// The edges that leave a node, in their order, each with its own fault, or otherwise that of the node that it
    /// leads to. Only an edge without a fault has to lead to a node.
    fn edges(
        &mut self,
        alloc: Global,
        node: &[u8],
    ) -> Result<Vec<Edge<Self::Label, Self::Fault>>, AllocError>
        requires { is_node self.old node.now }
        ensures edges { IfOk result (λ edges. map edge_view edges.items ≡ leads self.old node.now) }
        ensures few { IfOk result (λ edges. length edges.items < 2 ^ 32) }
        ensures faults { IfOk result (λ edges. All (IsJudged (HasEdgeFault (wrong self.old) (flawed self.old) node.now)) edges.items) }
        ensures nodes { IfOk result (λ edges. All (λ edge. IfNone edge.fault (is_node self.old edge.node.items)) edges.items) }
        ensures same { OnOk result (self.new ≡ self.old) };
}
