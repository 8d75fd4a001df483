//! The stages of keys, read together with their positions.

ghost use Rattle.std.specs.Prelude.{◌≡◌, IfOk};
ghost use Rattle.order_keys.specs.Cells.{unpacked_cell};
ghost use Rattle.order_keys.specs.Lists.{unpacked_list};
ghost use Rattle.order_keys.specs.Stages.{lefts_of};

use crate::cells::{EMPTY, unpack_cell};
use crate::pack::Pack;
use crate::unread::Unread;
use cf_bind::Cell;
use std::alloc::AllocError;

/// Reads stages from the unread bytes of a key into these, and notes how many bytes are left after their number, and
/// after each of them.
#[tactic(auto, unfolding(crate::specs::Stages::lefts_of, crate::specs::Lists::unpacked_list))]
pub(crate) fn unpack_stages(
    cells: &mut Vec<Cell>,
    lefts: &mut Vec<usize>,
    key: &mut Unread<'_>,
) -> Result<(), AllocError>
    ensures cells { IfOk result (λ _. record { value = cells.new.items; left = key.new } ≡ unpacked_list unpacked_cell key.old) }
    ensures lefts { IfOk result (λ _. lefts.new.items ≡ lefts_of key.old) }
{
    let count = u64::unpack(key) as usize;
    cells.resize(count, EMPTY)?;
    lefts.clear();
    lefts.push(key.count())?;
    let cells = cells.as_mut_slice();
    for i in 0..count {
        unpack_cell(&mut cells[i], key);
        lefts.push(key.count())?;
    }
    Ok(())
}
