//! The key of a node that differs from another only in some of its stages.

ghost use Rattle.std.specs.Prelude.{◌≡◌, ◌≤◌, IfOk, length};
ghost use Rattle.order_keys.specs.Beside.{DiffersWithin};
ghost use Rattle.order_keys.specs.Keys.{bare_node, key_of_node};
ghost use Rattle.order_keys.specs.Situations.{IsWhole};
ghost use Rattle.order_keys.specs.Stages.{lefts_of};

use crate::lists::pack_items;
use crate::node::{Node, note_shape};
use std::alloc::{AllocError, Global};

/// The key of a node, from the key of another node from which it differs only within some stages, and from the position
/// of each stage there.
pub fn write_key_beside(
    alloc: Global,
    before: &Node,
    key: &[u8],
    lefts: &[usize],
    node: &Node,
    low: usize,
    high: usize,
) -> Result<Vec<u8>, AllocError>
    requires key { key.now ≡ key_of_node before.now }
    requires lefts { lefts.now ≡ lefts_of key.now }
    requires order { low ≤ high }
    requires inside { high ≤ length node.now.situation.cells }
    requires beside { DiffersWithin low high before.now node.now }
    ensures key { IfOk result (λ key. key.items ≡ key_of_node node.now) }
    ensures whole { IsWhole node.now.situation }
    ensures bare { bare_node node.now ≡ node.now }
{
    note_shape(&node.situation);
    let mut changed = Vec::with_capacity(alloc, key.len() + 64)?;
    changed.extend_from_slice(&key[..key.len() - lefts[low]])?;
    pack_items(&node.situation.cells[low..high], &mut changed)?;
    changed.extend_from_slice(&key[key.len() - lefts[high]..])?;
    Ok(changed)
}
