//! The policy that takes the candidates in turn.

ghost use Rattle.std.specs.Prelude.{◌≡◌, ◌<◌, MatchOption, None, Some, length, slice_get};
ghost use Rattle.cf_index.specs.Order.{slide_place};
ghost use Rattle.cf_index.specs.Ranks.{rank_of};
ghost use Rattle.cf_sched.specs.Paces.{offers};
ghost use Rattle.cf_sched.specs.Policies.{round_on, round_pick};

use crate::pace::Pace;
use crate::policy::Policy;
use cf_bind::Move;
use cf_core::Core;
use cf_index::{Candidates, Rank};
use std::marker::Model;

/// Picks the first candidate after its last pick in the order of all moves, or the first of all if none comes after it
/// or nothing was picked yet. Contracts see the policy as its last pick. It also keeps the rank of that pick; if
/// nothing was picked, the rank of a Slide, after which all candidates are searched.
#[derive(Drop)]
pub struct Round {
    last: Option<Move>,
    rank: Rank,
}

impl Model for Round {
    ghost use Rattle.std.specs.Prelude.{◌≡◌, MatchOption, Option};
    ghost use Rattle.cf_bind.specs.declared.moves.Move.{Move};
    ghost use Rattle.cf_index.specs.Order.{slide_place};
    ghost use Rattle.cf_index.specs.Ranks.{rank_of};

    ghost Value = { Option Move };

    ghost view = { λ r. r.last };

    ghost invariant = { λ r. MatchOption r.last (r.rank.kind ≡ slide_place) (λ mv. r.rank ≡ rank_of mv) };
}

impl Round {
    /// A policy that has picked nothing.
    pub fn new() -> Round
        ensures { result ≡ None }
    {
        Round {
            last: None,
            rank: Rank::of(Move::Slide(0, 0)),
        }
    }

    /// The last pick.
    #[inline(always)]
    pub fn last(&self) -> Option<Move>
        ensures { result ≡ self.now }
    {
        self.last
    }

    /// The rank of the last pick; that of a Slide if nothing was picked.
    #[inline(always)]
    pub fn rank(&self) -> Rank
        ensures { MatchOption self.now (result.kind ≡ slide_place) (λ mv. result ≡ rank_of mv) }
    {
        self.rank
    }

    /// Records a pick.
    // The rank is set first, so that the compiler knows it if it knows the pick.
    #[inline(always)]
    pub fn keep(&mut self, mv: Move)
        ensures { self.new ≡ Some mv }
    {
        let rank = Rank::of(mv);
        self.last = Some(mv);
        self.rank = rank;
    }

    /// Picks one of the moves that a processor offers, from the list of all.
    #[inline(always)]
    fn choose_of_all(&mut self, core: &Core, candidates: &mut Candidates, pace: &Pace) -> Move
        requires { 0 < length (offers pace.now core.now.plan core.now.state) }
        ensures choice { Some result ≡ slice_get (offers pace.now core.now.plan core.now.state)
            (round_pick self.old (offers pace.now core.now.plan core.now.state)) }
        ensures onward { self.new ≡ round_on self.old (offers pace.now core.now.plan core.now.state) }
    {
        let next = first_of_all(self.last, core, candidates, pace);
        self.keep(next);
        next
    }
}

/// The first of the moves that a processor offers after the last one, from the list of all.
// This path is rare, and not inlined, so that the search after the last move is part of a run's loop. Only the last
// pick is passed, by value, so that the policy need not be in memory.
#[inline(never)]
fn first_of_all(last: Option<Move>, core: &Core, candidates: &mut Candidates, pace: &Pace) -> Move
    requires { 0 < length (offers pace.now core.now.plan core.now.state) }
    ensures { Some result ≡ slice_get (offers pace.now core.now.plan core.now.state)
        (round_pick last (offers pace.now core.now.plan core.now.state)) }
{
    pace.offer(core, candidates);
    let place = candidates.first_after(last);
    candidates.pick(place)
}

impl Policy for Round {
    ghost picked = { round_pick };

    ghost onward = { round_on };

    #[inline(always)]
    fn pick(&mut self, candidates: &Candidates) -> usize {
        let place = candidates.first_after(self.last);
        self.keep(candidates.pick(place));
        place
    }

    #[inline(always)]
    fn choose(&mut self, core: &Core, candidates: &mut Candidates, pace: &Pace) -> Move {
        if let Some(next) = Candidates::soon(core, self.rank, pace.rule(), pace.held()) {
            self.keep(next);
            return next;
        }
        self.choose_of_all(core, candidates, pace)
    }
}
