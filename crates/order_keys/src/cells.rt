//! The contents of a stage, and of a cell of a siding, in keys.

ghost use Rattle.std.specs.Prelude.{◌≡◌};
ghost use Rattle.order_keys.specs.Cells.{is_empty_stage as is_empty_in, stage_flags_of, unpacked_cell};

use crate::compound::{pack_some, unpack_some};
use crate::pack::Pack;
use crate::stage_flags::StageFlags;
use crate::unread::Unread;
use cf_bind::{Cell, Op};
use rv_inst::Instr;
use std::alloc::AllocError;

/// An empty stage.
pub(crate) const EMPTY: Cell = Cell {
    passenger: None,
    packet: None,
    met: false,
};

/// Whether the stage is empty: no instruction, no result, and the flag for a meeting not set.
#[inline(always)]
fn is_empty(cell: &Cell) -> bool
    ensures { result ≡ is_empty_in cell.now }
{
    cell.passenger.is_none() && cell.packet.is_none() && !cell.met
}

/// What is in the stage.
#[inline(always)]
fn flags(cell: &Cell) -> StageFlags
    ensures { result ≡ stage_flags_of cell.now }
{
    StageFlags {
        instruction: cell.passenger.is_some(),
        result: cell.packet.is_some(),
        met: cell.met,
    }
}

impl Pack for Cell {
    ghost use Rattle.order_keys.specs.Cells.{packed_cell, unpacked_cell};

    ghost packed = { packed_cell };

    ghost unpacked = { unpacked_cell };

    #[inline(always)]
    #[tactic(auto, unfolding(crate::specs::Cells::packed_cell))]
    fn pack(&self, key: &mut Vec<u8>) -> Result<(), AllocError> {
        flags(self).pack(key)?;
        pack_some(&self.passenger, key)?;
        pack_some(&self.packet, key)
    }

    #[inline(always)]
    fn unpack(key: &mut Unread<'_>) -> Cell {
        let mut cell = EMPTY;
        unpack_cell(&mut cell, key);
        cell
    }
}

/// Reads a stage from the unread bytes of a key into this one. A stage that is empty and stays so is not written.
#[inline(always)]
#[tactic(auto, unfolding(crate::specs::Cells::unpacked_cell, crate::specs::StageFlags::unpacked_stage_flags, crate::specs::Compounds::unpacked_some))]
pub(crate) fn unpack_cell(cell: &mut Cell, key: &mut Unread<'_>)
    ensures { record { value = cell.new; left = key.new } ≡ unpacked_cell key.old }
{
    let bits = key.byte();
    if bits == 0 {
        if !is_empty(&*cell) {
            *cell = EMPTY;
        }
    } else {
        let flags = StageFlags::of(bits);
        cell.passenger = unpack_some(flags.instruction, key);
        cell.packet = unpack_some(flags.result, key);
        cell.met = flags.met;
    }
}

impl Pack for Op {
    ghost use Rattle.order_keys.specs.Cells.{packed_op, unpacked_op};

    ghost packed = { packed_op };

    ghost unpacked = { unpacked_op };

    #[inline(always)]
    #[tactic(auto, unfolding(crate::specs::Cells::packed_op))]
    fn pack(&self, key: &mut Vec<u8>) -> Result<(), AllocError> {
        (self.pc, self.instr).pack(key)?;
        (self.a, self.b, self.answer).pack(key)
    }

    #[inline(always)]
    #[tactic(auto, unfolding(crate::specs::Cells::unpacked_op))]
    fn unpack(key: &mut Unread<'_>) -> Op {
        let (pc, instr) = <(u32, Instr)>::unpack(key);
        let (a, b, answer) = <(u32, u32, Option<u32>)>::unpack(key);
        Op {
            pc,
            instr,
            a,
            b,
            answer,
        }
    }
}
