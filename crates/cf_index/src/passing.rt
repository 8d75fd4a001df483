//! The candidates within the stages.

ghost use Rattle.std.specs.Prelude.{◌≡◌, ◌<◌, ◌≤◌, Some, length, slice_get};
ghost use Rattle.cf_index.specs.Listed.{passing_moves};
ghost use Rattle.cf_index.specs.Most.{most_passing};
ghost use Rattle.cf_index.specs.Order.{passed_moves};

use crate::bits::{count, count_below, nth};
use cf_bind::Move;

/// For each kind of move from Climb to Launch, the stages where it can be made: bit i - 1 for stage i.
#[derive(Clone, Copy)]
pub(crate) struct Passing {
    pub(crate) climb: u32,
    pub(crate) fall: u32,
    pub(crate) meet: u32,
    pub(crate) execute: u32,
    pub(crate) send: u32,
    pub(crate) launch: u32,
}

impl Passing {
    /// How many there are.
    #[inline(always)]
    #[tactic(auto, using(crate::proofs::Parts::lengths), unfolding(crate::specs::Listed::passing_moves))]
    pub(crate) fn len(&self) -> usize
        ensures count { result ≡ length (passing_moves self.now) }
        ensures most { result ≤ most_passing }
    {
        count(self.climb as u64)
            + count(self.fall as u64)
            + count(self.meet as u64)
            + count(self.execute as u64)
            + count(self.send as u64)
            + count(self.launch as u64)
    }

    /// The move at this index among them, counted from 0.
    #[inline(always)]
    #[tactic(auto, using(crate::proofs::Parts::lengths), unfolding(crate::specs::Listed::passing_moves))]
    pub(crate) fn get(&self, i: usize) -> Move
        requires { i < length (passing_moves self.now) }
        ensures { Some result ≡ slice_get (passing_moves self.now) i }
    {
        let climbs = count(self.climb as u64);
        if i < climbs {
            return Move::Climb(nth(self.climb as u64, i) + 1);
        }
        let i = i - climbs;
        let falls = count(self.fall as u64);
        if i < falls {
            return Move::Fall(nth(self.fall as u64, i) + 1);
        }
        let i = i - falls;
        let meets = count(self.meet as u64);
        if i < meets {
            return Move::Meet(nth(self.meet as u64, i) + 1);
        }
        let i = i - meets;
        let executes = count(self.execute as u64);
        if i < executes {
            return Move::Execute(nth(self.execute as u64, i) + 1);
        }
        let i = i - executes;
        let sends = count(self.send as u64);
        if i < sends {
            return Move::Send(nth(self.send as u64, i) + 1);
        }
        Move::Launch(nth(self.launch as u64, i - sends) + 1)
    }

    /// The index of the first that comes after this move in the order of all moves.
    #[inline(always)]
    #[tactic(auto, using(crate::proofs::PassedStages::passing))]
    pub(crate) fn passed(&self, last: Move) -> usize
        ensures count { result ≡ passed_moves last (passing_moves self.now) }
        ensures most { result ≤ most_passing }
    {
        let climbs = count(self.climb as u64);
        let falls = climbs + count(self.fall as u64);
        let meets = falls + count(self.meet as u64);
        let executes = meets + count(self.execute as u64);
        let sends = executes + count(self.send as u64);
        match last {
            Move::Issue(_) | Move::Emit => 0,
            Move::Climb(i) => count_below(self.climb as u64, i as usize),
            Move::Fall(i) => climbs + count_below(self.fall as u64, i as usize),
            Move::Meet(i) => falls + count_below(self.meet as u64, i as usize),
            Move::Execute(i) => meets + count_below(self.execute as u64, i as usize),
            Move::Send(i) => executes + count_below(self.send as u64, i as usize),
            Move::Launch(i) => sends + count_below(self.launch as u64, i as usize),
            Move::Slide(_, _)
            | Move::Access
            | Move::Recover(_)
            | Move::Leave
            | Move::Exit
            | Move::Serve => self.len(),
        }
    }
}
