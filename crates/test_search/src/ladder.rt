//! A graph whose paths are easily counted.

ghost use Rattle.std.specs.Prelude.{◌≡◌, [], ◌∷◌, IfOk};
ghost use Rattle.test_search.specs.Ladders.{fault_at};

use order_search::{Edge, Graph};
use std::alloc::{AllocError, Global};

/// A ladder: two edges lead from each node to the next, up to the last, which has no outgoing edge. A node is the byte
/// of its number. One of the nodes may be broken.
#[derive(Drop)]
pub(crate) struct Ladder {
    pub(crate) last: u8,
    pub(crate) broken: Option<u8>,
}

/// The fault of the node with a number; only the node with the number `broken` has one.
fn fault_of(broken: Option<u8>, number: u8) -> Option<u8>
    ensures { result ≡ fault_at broken number }
{
    match broken {
        Some(place) if place == number => Some(number),
        _ => None,
    }
}

/// An edge to the node with a number; only the node with the number `broken` has a fault.
fn edge_to(
    alloc: Global,
    label: u8,
    number: u8,
    broken: Option<u8>,
) -> Result<Edge<u8, u8>, AllocError>
    ensures label { IfOk result (λ edge. edge.label ≡ label) }
    ensures fault { IfOk result (λ edge. edge.fault ≡ fault_at broken number) }
    ensures node { IfOk result (λ edge. edge.node.items ≡ number ∷ []) }
{
    Ok(Edge {
        label,
        fault: fault_of(broken, number),
        node: vec![in alloc; number]?,
    })
}

impl Graph for Ladder {
    type Label = u8;

    type Fault = u8;

    ghost use Rattle.test_search.specs.Ladders.{IsRung, rungs, IsBroken};

    ghost is_node = { λ ladder node. IsRung ladder.last node };

    ghost leads = { λ ladder node. rungs ladder.last node };

    ghost wrong = { λ ladder from edge fault. ⊥ };

    ghost flawed = { λ ladder node fault. IsBroken ladder.broken node fault };

    #[tactic(auto, using(crate::proofs::Broken::breaking))]
    fn edges(&mut self, alloc: Global, node: &[u8]) -> Result<Vec<Edge<u8, u8>>, AllocError> {
        let number = node[0];
        if number < self.last {
            let left = edge_to(alloc, 0, number + 1, self.broken)?;
            let right = edge_to(alloc, 1, number + 1, self.broken)?;
            let edges = vec![in alloc; left, right]?;
            return Ok(edges);
        }
        Ok(Vec::new(alloc))
    }
}
