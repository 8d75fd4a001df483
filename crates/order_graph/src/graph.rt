//! The graph of a trial: its nodes are states as bytes, and its edges the moves that lead on.

ghost use Rattle.std.specs.Prelude.{◌≡◌, ◌<◌, ◌^◌, map, length, IfNone, IfOk, OnOk};
ghost use Rattle.std.specs.List.{All};
ghost use Rattle.order_graph.specs.KeyGraph.{IsOrderKey, IsRightNode, IsWrongEdge, IsWrongNode, edges_from, memory_loaded};
ghost use Rattle.order_keys.specs.Keys.{node_of};
ghost use Rattle.order_keys.specs.Stages.{lefts_of};
ghost use Rattle.order_search.specs.Paths.{HasEdgeFault};
ghost use Rattle.order_search.specs.Views.{IsJudged, edge_view};

use crate::edges::edges_of;
use crate::trial::{Trial, note_trial};
use cf_bind::Move;
use mem_regions::Regions;
use order_claims::WrongKind;
use order_keys::Node;
use order_search::{Edge, Graph};
use std::alloc::{AllocError, Global};
use std::marker::Model;

/// Nodes whose memory is used again: the node whose edges are asked for, and the node to which each of its moves leads
/// in turn; the positions of the stages of the first in its key; and its moves. No contract says what they hold between
/// two calls.
#[derive(Drop)]
pub(crate) struct Scratch {
    node: Node,
    next: Node,
    lefts: Vec<usize>,
    moves: Vec<Move>,
}

impl Model for Scratch {
    ghost Value = { Unit {0} };

    ghost view = { λ scratch. tt };
}

impl Scratch {
    /// Two nodes without stages.
    pub(crate) fn new(alloc: Global) -> Scratch {
        Scratch {
            node: Node::blank(alloc),
            next: Node::blank(alloc),
            lefts: Vec::new(alloc),
            moves: Vec::new(alloc),
        }
    }
}

/// A trial, and the memory in which its moves are made. Between two calls this memory is as it was loaded.
#[derive(Drop)]
pub struct OrderGraph {
    pub(crate) trial: Trial,
    pub(crate) mem: Regions,
    pub(crate) scratch: Scratch,
}

/// Reads the node with the key into this one.
fn read_node(
    alloc: Global,
    trial: &Trial,
    key: &[u8],
    node: &mut Node,
    lefts: &mut Vec<usize>,
) -> Result<(), AllocError>
    requires { IsOrderKey trial.now key.now }
    ensures node { OnOk result (node.new ≡ node_of key.now) }
    ensures lefts { OnOk result (lefts.new.items ≡ lefts_of key.now) }
    ensures right { OnOk result (IsRightNode trial.now node.new) }
{
    note_trial(trial);
    let is_read = node.read(alloc, key, lefts)?;
    if is_read { Ok(()) } else { unreachable!() }
}

/// The edges of the node with the key, in a memory that is as it was loaded, and is so again afterwards.
fn edges_at(
    alloc: Global,
    trial: &Trial,
    mem: &mut Regions,
    key: &[u8],
    scratch: &mut Scratch,
) -> Result<Vec<Edge<Move, WrongKind>>, AllocError>
    requires key { IsOrderKey trial.now key.now }
    requires memory { mem.old ≡ memory_loaded trial.now }
    ensures kept { OnOk result (mem.new ≡ mem.old) }
    ensures edges { IfOk result (λ edges. map edge_view edges.items ≡ edges_from trial.now key.now) }
    ensures few { IfOk result (λ edges. length edges.items < 2 ^ 32) }
    ensures faults { IfOk result (λ edges. All (IsJudged (HasEdgeFault (IsWrongEdge trial.now) (IsWrongNode trial.now) key.now)) edges.items) }
    ensures keys { IfOk result (λ edges. All (λ edge. IfNone edge.fault (IsOrderKey trial.now edge.node.items)) edges.items) }
{
    note_trial(trial);
    let Scratch {
        node,
        next,
        lefts,
        moves,
    } = scratch;
    read_node(alloc, trial, key, node, lefts)?;
    node.changes.apply(&trial.image, mem);
    let edges = edges_of(alloc, trial, mem, &*node, key, &*lefts, moves, next)?;
    node.changes.take_back(&trial.image, mem);
    Ok(edges)
}

impl Graph for OrderGraph {
    type Label = Move;

    type Fault = WrongKind;

    ghost use Rattle.order_graph.specs.KeyGraph.{IsNodeIn, IsWrongEdge, IsWrongNode, edges_from};

    ghost is_node = { λ graph key. IsNodeIn graph.trial graph.mem key };

    ghost leads = { λ graph key. edges_from graph.trial key };

    ghost wrong = { λ graph key e kind. IsWrongEdge graph.trial key e kind };

    ghost flawed = { λ graph key kind. IsWrongNode graph.trial key kind };

    fn edges(
        &mut self,
        alloc: Global,
        key: &[u8],
    ) -> Result<Vec<Edge<Move, WrongKind>>, AllocError> {
        edges_at(alloc, &self.trial, &mut self.mem, key, &mut self.scratch)
    }
}
