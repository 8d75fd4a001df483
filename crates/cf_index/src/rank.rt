//! The position of a move in the order of all moves.

ghost use Rattle.std.specs.Prelude.{◌≡◌, ℕ, ◌+◌, ◌<◌, ◌&&◌, nat_lt};
ghost use Rattle.cf_layout.specs.Words.{has_bit};
ghost use Rattle.cf_index.specs.Order.{below_or};
ghost use Rattle.cf_index.specs.Ranks.{rank_of};

use crate::words::past;
use cf_bind::{Guess, Move};

// The places of the kinds in the order of all moves, by which a search compares the kinds.
pub(crate) const ISSUE: u32 = 0;

pub(crate) const EMIT: u32 = 1;

pub(crate) const CLIMB: u32 = 2;

pub(crate) const FALL: u32 = 3;

pub(crate) const MEET: u32 = 4;

pub(crate) const EXECUTE: u32 = 5;

pub(crate) const SEND: u32 = 6;

pub(crate) const LAUNCH: u32 = 7;

pub(crate) const SLIDE: u32 = 8;

pub(crate) const ACCESS: u32 = 9;

pub(crate) const RECOVER: u32 = 10;

pub(crate) const LEAVE: u32 = 11;

pub(crate) const EXIT: u32 = 12;

pub(crate) const SERVE: u32 = 13;

/// The position of a move in the order of all moves: the place of its kind among the kinds, and its stage or its
/// siding.
#[derive(Clone, Copy)]
pub struct Rank {
    pub(crate) kind: u32,
    place: u32,
}

impl Rank {
    /// The rank of a move.
    #[inline(always)]
    pub fn of(mv: Move) -> Rank
        ensures { result ≡ rank_of mv }
    {
        match mv {
            Move::Issue(Guess::Next) => Rank {
                kind: ISSUE,
                place: 0,
            },
            Move::Issue(Guess::Taken) => Rank {
                kind: ISSUE,
                place: 1,
            },
            Move::Issue(Guess::Wait) => Rank {
                kind: ISSUE,
                place: 2,
            },
            Move::Issue(Guess::To(_)) => Rank {
                kind: ISSUE,
                place: 3,
            },
            Move::Emit => Rank {
                kind: EMIT,
                place: 0,
            },
            Move::Climb(i) => Rank {
                kind: CLIMB,
                place: i,
            },
            Move::Fall(i) => Rank {
                kind: FALL,
                place: i,
            },
            Move::Meet(i) => Rank {
                kind: MEET,
                place: i,
            },
            Move::Execute(i) => Rank {
                kind: EXECUTE,
                place: i,
            },
            Move::Send(i) => Rank {
                kind: SEND,
                place: i,
            },
            Move::Launch(i) => Rank {
                kind: LAUNCH,
                place: i,
            },
            Move::Slide(k, _) => Rank {
                kind: SLIDE,
                place: k,
            },
            Move::Access => Rank {
                kind: ACCESS,
                place: 0,
            },
            Move::Recover(i) => Rank {
                kind: RECOVER,
                place: i,
            },
            Move::Leave => Rank {
                kind: LEAVE,
                place: 0,
            },
            Move::Exit => Rank {
                kind: EXIT,
                place: 0,
            },
            Move::Serve => Rank {
                kind: SERVE,
                place: 0,
            },
        }
    }

    /// The stages of the word at which the move of this kind comes after the rank.
    #[inline(always)]
    #[tactic(auto, using(crate::proofs::Ranks::above))]
    pub(crate) fn after(self, kind: u32, word: u32) -> u32
        ensures { (k : ℕ) → has_bit result k ≡ (has_bit word k && below_or self.kind kind (nat_lt self.place (k + 1))) }
    {
        if self.kind < kind {
            word
        } else if self.kind == kind {
            past(word, self.place)
        } else {
            0
        }
    }
}
