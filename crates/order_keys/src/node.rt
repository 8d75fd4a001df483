//! The nodes of a search, and their keys.

ghost use Rattle.std.specs.Prelude.{◌≡◌, IfOk, MatchBool, MatchOption, length};
ghost use Rattle.order_keys.specs.Situations.{without_memory, IsWhole};
ghost use Rattle.order_keys.specs.Keys.{bare_node, blank_node, key_of_node, node_of};
ghost use Rattle.order_keys.specs.Stages.{lefts_of};

use crate::changes::{pack_changes, unpack_changes};
use crate::pack::Pack;
use crate::situation_parts::unpack_situation;
use crate::situations::pack_situation;
use crate::unread::Unread;
use arrayvec::ArrayVec;
use cf_bind::Fetch;
use mem_changes::Changes;
use order_model::Situation;
use std::alloc::{AllocError, Global};

/// A node of the search through all orders: a state, and how many instructions were issued on the way to it.
#[derive(Drop)]
pub struct Node {
    /// The state, all but its memory.
    pub situation: Situation,

    /// How its memory differs from the one that was loaded.
    pub changes: Changes,

    /// How many Issue moves were made.
    pub issues: u8,
}

/// A register file has 32 values.
#[inline(always)]
fn note_length(regs: &[u32; 32])
    ensures { length regs.now ≡ 32 }
{}

/// A state has at most 64 requests, and 32 places each in its cache and in its register file; it is considered without
/// a memory, and without a fault.
#[inline(always)]
pub(crate) fn note_shape(situation: &Situation)
    ensures whole { IsWhole situation.now }
    ensures bare { without_memory situation.now ≡ situation.now }
{
    let _ = situation.lane.len();
    note_length(&situation.regs);
}

/// The node's key, which no other node has; or an error if there is not enough memory for it.
#[tactic(auto, unfolding(crate::specs::Keys::key_of_node, crate::specs::Compounds::packed_triple))]
pub fn write_key(alloc: Global, node: &Node) -> Result<Vec<u8>, AllocError>
    ensures key { IfOk result (λ key. key.items ≡ key_of_node node.now) }
    ensures whole { IsWhole node.now.situation }
    ensures bare { bare_node node.now ≡ node.now }
{
    note_shape(&node.situation);
    let mut key = Vec::with_capacity(alloc, 256)?;
    pack_situation(&node.situation, &mut key)?;
    pack_changes(&node.changes, &mut key)?;
    node.issues.pack(&mut key)?;
    Ok(key)
}

impl Node {
    /// A node without stages and changes, which has taken no memory yet: another can be read into it.
    pub fn blank(alloc: Global) -> Node
        ensures { result ≡ blank_node }
    {
        Node {
            situation: Situation {
                cells: Vec::new(alloc),
                sidings: Vec::new(alloc),
                lane: ArrayVec::new(),
                fetch: Fetch::Waiting,
                cache: [None; 32],
                regs: [0; 32],
                retired: 0,
                ending: None,
            },
            changes: Changes {
                bytes: Vec::new(alloc),
                code: Vec::new(alloc),
                program_break: 0,
            },
            issues: 0,
        }
    }

    /// Reads the node with this key into this one, in the memory that it has if this is enough, and notes how many
    /// bytes of the key are left after the number of stages and after each stage. Returns `false` if there is no such
    /// node: the key's lane is longer than 64, or its cache or its registers are not 32, which no key of a node has.
    /// After `false` or an error nothing is known of this node.
    #[tactic(auto, unfolding(crate::specs::Keys::node_of, crate::specs::Keys::unpacked_node, crate::specs::Compounds::unpacked_triple))]
    pub fn read(
        &mut self,
        alloc: Global,
        key: &[u8],
        lefts: &mut Vec<usize>,
    ) -> Result<bool, AllocError>
        ensures node { IfOk result (λ found. MatchBool found (self.new ≡ node_of key.now) (IsWhole (node_of key.now).situation → ⊥)) }
        ensures lefts { IfOk result (λ _. lefts.new.items ≡ lefts_of key.now) }
    {
        let mut key = Unread::new(key);
        if !unpack_situation(alloc, &mut self.situation, lefts, &mut key)? {
            return Ok(false);
        }
        unpack_changes(&mut self.changes, &mut key)?;
        self.issues = u8::unpack(&mut key);
        Ok(true)
    }
}

/// The node with this key; or an error if there is not enough memory for it. There is none if the key's lane is longer
/// than 64, or its cache or its registers are not 32, which no key of a [`Node`] has.
pub fn read_key(alloc: Global, key: &[u8]) -> Result<Option<Node>, AllocError>
    ensures { IfOk result (λ found. let node = node_of key.now in MatchOption found (IsWhole node.situation → ⊥) (λ n. n ≡ node)) }
{
    let mut node = Node::blank(alloc);
    let mut lefts = Vec::new(alloc);
    if node.read(alloc, key, &mut lefts)? {
        Ok(Some(node))
    } else {
        Ok(None)
    }
}
