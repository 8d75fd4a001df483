//! A state of the table as a value.

ghost use Rattle.std.specs.Prelude.{◌≡◌, slice_get};
ghost use Rattle.cf_semantics.specs.state.State.{cell_at, siding_at};
ghost use Rattle.cf_semantics.specs.state.Passengers.{cached as cached_in};

use crate::siding_ops::SidingOps;
use arrayvec::ArrayVec;
use cf_bind::{Cell, End, Fetch, Op};
use std::marker::Model;

/// A state of the table of moves without its memory: the contents of the pipes and the sidings, the requests, fetch,
/// the cache, the registers, how many instructions have retired, and how the program ended. Contracts see it as the
/// state with a memory that has no regions.
#[derive(Drop)]
pub struct Situation {
    /// The stages, from the lowest up.
    pub cells: Vec<Cell>,

    /// The sidings.
    pub sidings: Vec<SidingOps>,

    /// The requested registers, in the order in which they will be answered.
    pub lane: ArrayVec<u8, 64>,

    /// What fetch does.
    pub fetch: Fetch,

    /// For each register the cached value, if any.
    pub cache: [Option<u32>; 32],

    /// The register file.
    pub regs: [u32; 32],

    /// How many instructions have retired.
    pub retired: u64,

    /// How the program ended.
    pub ending: Option<End>,
}

impl Model for Situation {
    ghost use Rattle.std.specs.Prelude.{◌≡◌, false, length};
    ghost use Rattle.cf_semantics.specs.state.State.{State};
    ghost use Rattle.order_model.specs.Situations.{no_memory};

    ghost Value = { State };

    ghost view = { λ s. record { cells = s.cells.items; sidings = s.sidings.items; lane = s.lane.items; fetch = s.fetch; cache = s.cache; regs = s.regs; mem = no_memory; retired = s.retired; ending = s.ending; failed = false } };

    ghost invariant = { λ s. length s.cache ≡ 32 };
}

impl Situation {
    /// The contents of the stage with this number.
    #[inline(always)]
    pub fn cell(&self, i: usize) -> Option<Cell>
        ensures { result ≡ cell_at self.now.cells i }
    {
        if i == 0 {
            return None;
        }
        self.cells.get(i - 1).copied()
    }

    /// The cells of the siding with this number; none if there is no such siding.
    #[inline(always)]
    pub(crate) fn siding(&self, k: usize) -> &[Option<Op>]
        ensures { result.now ≡ siding_at self.now k }
    {
        match self.sidings.get(k) {
            Some(siding) => siding.cells(),
            None => &[],
        }
    }

    /// The contents of a cell of a siding, if there is one with these numbers.
    #[inline(always)]
    pub(crate) fn op_at(&self, k: usize, c: usize) -> Option<Option<Op>>
        ensures { result ≡ slice_get (siding_at self.now k) c }
    {
        self.siding(k).get(c).copied()
    }

    /// The cached value of the register, if there is one.
    #[inline(always)]
    pub(crate) fn cached(&self, reg: u8) -> Option<u32>
        ensures { result ≡ cached_in self.now.cache reg }
    {
        match self.cache.get(reg as usize) {
            Some(value) => *value,
            None => None,
        }
    }
}
