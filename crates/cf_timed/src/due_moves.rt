//! The moves that are due at one time, kept while they are made one after another.

ghost use Rattle.std.specs.Prelude.{◌≡◌, ◌<◌, MatchOption, None, Some, length, slice_get};
ghost use Rattle.cf_timed.specs.DueMoves.{kept_after, none_kept, without_first};

use crate::found_moves::FoundMoves;
use cf_bind::Move;
use std::marker::Model;

/// Moves that finish at one time, as a look found them; `next` is the index of the first that is left.
#[derive(Drop)]
pub(crate) struct DueMoves {
    pub(crate) found: FoundMoves,
    pub(crate) next: usize,
}

impl Model for DueMoves {
    ghost use Rattle.std.specs.Prelude.{drop};
    ghost use Rattle.cf_timed.specs.DueMoves.{KeptMoves};

    ghost Value = { KeptMoves };

    ghost view = { λ d. record { time = d.found.time; moves = drop d.next d.found.moves } };
}

impl DueMoves {
    /// No moves.
    #[inline(always)]
    pub(crate) fn new() -> DueMoves
        ensures { result ≡ none_kept }
    {
        DueMoves {
            found: FoundMoves::new(),
            next: 0,
        }
    }

    /// The time at which the moves finish.
    #[inline(always)]
    pub(crate) fn time(&self) -> u64
        ensures { result ≡ self.now.time }
    {
        self.found.time()
    }

    /// The first of the moves.
    #[inline(always)]
    #[tactic(auto, using(crate::proofs::KeptLists::left_first))]
    pub(crate) fn first(&self) -> Option<&Move>
        ensures { MatchOption result (None ≡ slice_get self.now.moves 0) (λ mv. Some mv.now ≡ slice_get self.now.moves 0) }
    {
        self.found.get(self.next)
    }

    /// Leaves out the first of the moves.
    #[inline(always)]
    #[tactic(auto, using(crate::proofs::KeptLists::left_fewer, crate::proofs::KeptLists::left_some))]
    pub(crate) fn skip(&mut self)
        requires { 0 < length self.old.moves }
        ensures { self.new ≡ without_first self.old }
    {
        // An index below the number of moves, so that one more fits its type.
        let _count = self.found.count();
        self.next += 1;
    }

    /// Leaves out all moves.
    #[inline(always)]
    fn clear(&mut self)
        ensures { self.new ≡ none_kept }
    {
        self.found.clear_to(0);
        self.next = 0;
    }

    /// Leaves out all moves, unless a move that finished at their time was made; after a Serve all are left out.
    #[inline(always)]
    pub(crate) fn made(&mut self, mv: Move, time: u64)
        ensures { self.new ≡ kept_after self.old mv time }
    {
        let goes_on = match mv {
            Move::Serve => false,
            _ => time == self.found.time() && time < u64::MAX,
        };
        if !goes_on {
            self.clear();
        }
    }
}
