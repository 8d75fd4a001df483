//! Copies of nodes.

ghost use Rattle.std.specs.Prelude.{◌≡◌, IfOk, OnOk};

use mem_changes::Changes;
use order_keys::Node;
use order_model::{SidingOps, Situation};
use std::alloc::{AllocError, Global};

/// A copy of the node.
pub(crate) fn copy(alloc: Global, node: &Node) -> Result<Node, AllocError>
    ensures { IfOk result (λ copy. copy ≡ node.now) }
{
    Ok(Node {
        situation: node.situation.copy(alloc)?,
        changes: node.changes.copy()?,
        issues: node.issues,
    })
}

/// Copies these items into the list, in the memory that it has if this is enough.
fn copy_items<T: Copy + Drop>(items: &[T], list: &mut Vec<T>) -> Result<(), AllocError>
    ensures { OnOk result (list.new.items ≡ items.now) }
{
    list.clear();
    list.extend_from_slice(items)
}

/// The same for sidings.
fn copy_sidings(
    alloc: Global,
    sidings: &[SidingOps],
    list: &mut Vec<SidingOps>,
) -> Result<(), AllocError>
    ensures { OnOk result (list.new.items ≡ sidings.now) }
{
    list.clear();
    for siding in sidings {
        list.push(SidingOps::of(siding.cells().to_vec(alloc)?))?;
    }
    Ok(())
}

/// The same for a state.
fn copy_situation(alloc: Global, from: &Situation, to: &mut Situation) -> Result<(), AllocError>
    ensures { OnOk result (to.new ≡ from.now) }
{
    copy_items(&from.cells, &mut to.cells)?;
    copy_sidings(alloc, &from.sidings, &mut to.sidings)?;
    to.lane = from.lane.clone()?;
    to.fetch = from.fetch;
    to.cache = from.cache;
    to.regs = from.regs;
    to.retired = from.retired;
    to.ending = from.ending;
    Ok(())
}

/// The same for changes.
fn copy_changes(from: &Changes, to: &mut Changes) -> Result<(), AllocError>
    ensures { OnOk result (to.new ≡ from.now) }
{
    copy_items(&from.bytes, &mut to.bytes)?;
    copy_items(&from.code, &mut to.code)?;
    to.program_break = from.program_break;
    Ok(())
}

/// Makes a node the same as another.
pub(crate) fn copy_into(alloc: Global, from: &Node, to: &mut Node) -> Result<(), AllocError>
    ensures { OnOk result (to.new ≡ from.now) }
{
    copy_situation(alloc, &from.situation, &mut to.situation)?;
    copy_changes(&from.changes, &mut to.changes)?;
    to.issues = from.issues;
    Ok(())
}
