//! What is kept of a move so that it can be taken back: the old contents of what it writes.

ghost use Rattle.std.specs.Prelude.{◌≡◌};
ghost use Rattle.cf_core.specs.Undo.{kept_by};

use crate::old_number::OldNumber;
use cf_bind::{Cell, End, Fetch, Move, Op};

/// Nothing, or one or two of the things that a move writes.
#[derive(Clone, Copy)]
pub(crate) enum Few<T> {
    Nothing,
    One(T),
    Two(T, T),
}

/// What was in a stage.
#[derive(Clone, Copy)]
pub(crate) struct OldCell {
    pub(crate) stage: u32,
    pub(crate) cell: Cell,
}

/// What was in a cell of a siding.
#[derive(Clone, Copy)]
pub(crate) struct OldOp {
    pub(crate) siding: u32,
    pub(crate) place: u32,
    pub(crate) op: Option<Op>,
}

/// What a move did to the lane of requests.
#[derive(Clone, Copy)]
pub(crate) enum OldLane {
    /// Nothing.
    Same,

    /// It took out the first request.
    Taken(u8),

    /// It added this many after the others.
    Added(u32),
}

/// What was in a register.
#[derive(Clone, Copy)]
pub(crate) struct OldRegister {
    pub(crate) reg: u8,
    pub(crate) value: u32,
}

/// A move with the old contents of what it writes: the stages, the cells of the siding, the lane, fetch, the cached
/// values, the register, the bytes of memory, the retired count and the ending. [`Core::before`](crate::Core::before)
/// makes it.
#[derive(Clone, Copy)]
pub struct Undo {
    pub(crate) made: Move,
    pub(crate) cells: Few<OldCell>,
    pub(crate) ops: Few<OldOp>,
    pub(crate) lane: OldLane,
    pub(crate) fetch: Fetch,
    pub(crate) cache: [Option<u32>; 32],
    pub(crate) register: Option<OldRegister>,
    pub(crate) number: Option<OldNumber>,
    pub(crate) retired: u64,
    pub(crate) ending: Option<End>,
}

impl Undo {
    /// The move.
    #[tactic(auto, unfolding(crate::specs::Undo::kept_by))]
    pub fn moved(&self) -> Move
        ensures { result ≡ (kept_by self.now).move }
    {
        self.made
    }
}
