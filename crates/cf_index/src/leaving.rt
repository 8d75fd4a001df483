//! The candidates by which something leaves the sidings or the pipes.

ghost use Rattle.std.specs.Prelude.{◌≡◌, ◌<◌, ◌≤◌, Some, length, slice_get};
ghost use Rattle.cf_index.specs.Listed.{leaving_moves};
ghost use Rattle.cf_index.specs.Most.{most_leaving};
ghost use Rattle.cf_index.specs.Order.{passed_moves};

use crate::bits::{count, count_below, nth};
use cf_bind::Move;

/// Access; the stages where Recover can be made, with bit i - 1 for stage i; and Leave, Exit and Serve.
#[derive(Clone, Copy)]
pub(crate) struct Leaving {
    pub(crate) access: bool,
    pub(crate) recover: u32,
    pub(crate) leave: bool,
    pub(crate) exit: bool,
    pub(crate) serve: bool,
}

impl Leaving {
    /// How many there are.
    #[inline(always)]
    #[tactic(auto, using(crate::proofs::Parts::lengths), unfolding(crate::specs::Listed::leaving_moves))]
    pub(crate) fn len(&self) -> usize
        ensures count { result ≡ length (leaving_moves self.now) }
        ensures most { result ≤ most_leaving }
    {
        self.access as usize
            + count(self.recover as u64)
            + self.leave as usize
            + self.exit as usize
            + self.serve as usize
    }

    /// The move at this index among them, counted from 0.
    #[inline(always)]
    #[tactic(auto, using(crate::proofs::Parts::lengths), unfolding(crate::specs::Listed::leaving_moves))]
    pub(crate) fn get(&self, i: usize) -> Move
        requires { i < length (leaving_moves self.now) }
        ensures { Some result ≡ slice_get (leaving_moves self.now) i }
    {
        let accesses = self.access as usize;
        if i < accesses {
            return Move::Access;
        }
        let i = i - accesses;
        let recovers = count(self.recover as u64);
        if i < recovers {
            return Move::Recover(nth(self.recover as u64, i) + 1);
        }
        let i = i - recovers;
        let leaves = self.leave as usize;
        if i < leaves {
            return Move::Leave;
        }
        if i - leaves < self.exit as usize {
            Move::Exit
        } else {
            Move::Serve
        }
    }

    /// The index of the first that comes after this move in the order of all moves.
    #[inline(always)]
    #[tactic(auto, using(crate::proofs::PassedEnds::leaving))]
    pub(crate) fn passed(&self, last: Move) -> usize
        ensures count { result ≡ passed_moves last (leaving_moves self.now) }
        ensures most { result ≤ most_leaving }
    {
        let accesses = self.access as usize;
        let recovers = accesses + count(self.recover as u64);
        match last {
            Move::Access => accesses,
            Move::Recover(i) => accesses + count_below(self.recover as u64, i as usize),
            Move::Leave => recovers + self.leave as usize,
            Move::Exit => recovers + self.leave as usize + self.exit as usize,
            Move::Serve => self.len(),
            _ => 0,
        }
    }
}
