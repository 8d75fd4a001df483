//! The moves that finish earliest of those that were looked at.

ghost use Rattle.std.specs.Prelude.{◌≡◌, ◌∷◌, MatchOption, None, Some, [], length, slice_get};
ghost use Rattle.cf_timed.specs.DueMoves.{kept_below, most_kept, none_at, with_one};

use cf_bind::Move;
use std::marker::Model;

/// Moves that finish at one time, in the order of all moves: the first `count` of the array.
#[derive(Drop)]
pub(crate) struct FoundMoves {
    time: u64,
    count: usize,
    moves: [Move; 8],
}

impl Model for FoundMoves {
    ghost use Rattle.std.specs.Prelude.{◌≤◌, take};
    ghost use Rattle.cf_timed.specs.DueMoves.{KeptMoves};

    ghost Value = { KeptMoves };

    ghost view = { λ f. record { time = f.time; moves = take f.count f.moves } };

    ghost invariant = { λ f. f.count ≤ 8 };
}

/// How many moves there is room for.
#[inline(always)]
fn room_in(moves: &[Move; 8]) -> usize
    ensures room { result ≡ length moves.now }
    ensures most { result ≡ most_kept }
{
    moves.len()
}

impl FoundMoves {
    /// No moves.
    #[inline(always)]
    pub(crate) fn new() -> FoundMoves
        ensures { result ≡ none_at 0 }
    {
        FoundMoves {
            time: 0,
            count: 0,
            moves: [Move::Exit; 8],
        }
    }

    /// The time at which the moves finish.
    #[inline(always)]
    pub(crate) fn time(&self) -> u64
        ensures { result ≡ self.now.time }
    {
        self.time
    }

    /// How many moves there are.
    #[inline(always)]
    #[tactic(auto, using(crate::proofs::KeptLists::kept_count))]
    pub(crate) fn count(&self) -> usize
        ensures { result ≡ length self.now.moves }
    {
        let _room = room_in(&self.moves);
        self.count
    }

    /// The move at an index, if there is one.
    #[inline(always)]
    #[tactic(auto, using(crate::proofs::KeptLists::kept_at, crate::proofs::KeptLists::kept_past))]
    pub(crate) fn get(&self, index: usize) -> Option<&Move>
        ensures { MatchOption result (None ≡ slice_get self.now.moves index) (λ mv. Some mv.now ≡ slice_get self.now.moves index) }
    {
        if index < self.count {
            Some(&self.moves[index])
        } else {
            None
        }
    }

    /// Leaves out all moves, and sets the time.
    #[inline(always)]
    pub(crate) fn clear_to(&mut self, time: u64)
        ensures { self.new ≡ none_at time }
    {
        self.time = time;
        self.count = 0;
    }

    /// This move alone, which finishes at this time.
    #[inline(always)]
    #[tactic(auto, using(crate::proofs::KeptLists::kept_one))]
    pub(crate) fn start(&mut self, time: u64, mv: Move)
        ensures { self.new ≡ record { time = time; moves = mv ∷ [] } }
    {
        self.time = time;
        self.moves[0] = mv;
        self.count = 1;
    }

    /// One more move with the same time, if there is room for it.
    #[inline(always)]
    #[tactic(auto, using(crate::proofs::KeptLists::kept_more))]
    pub(crate) fn push(&mut self, mv: Move)
        ensures { self.new ≡ with_one self.old mv }
    {
        if self.count < room_in(&self.moves) {
            self.moves[self.count] = mv;
            self.count += 1;
        }
    }

    /// Leaves out all moves if their time is the maximum `u64`.
    #[inline(always)]
    pub(crate) fn clear_if_never(&mut self)
        ensures { self.new ≡ kept_below self.old }
    {
        if self.time == u64::MAX {
            self.count = 0;
        }
    }
}
