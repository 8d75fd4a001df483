//! The candidates: the moves that are allowed, in the order of all moves.

ghost use Rattle.std.specs.Prelude.{◌≡◌, ◌<◌, IfOk, Some, [], length, nat_eq, slice_get};
ghost use Rattle.cf_semantics.specs.moves.Candidates.{held_back};

use crate::bits::{count, nth};
use crate::entering::Entering;
use crate::leaving::Leaving;
use crate::passing::Passing;
use cf_bind::Move;
use std::alloc::{AllocError, Global};
use std::marker::Model;

/// A list of moves in the order of all moves, each at most once: Issue by each guess other than an address, and Emit;
/// Climb, Fall, Meet, Execute, Send and Launch, each by stage; Slide, by siding and then cell; Access; Recover, by
/// stage; Leave, Exit and Serve. It takes no memory.
#[derive(Drop)]
pub struct Candidates {
    pub(crate) entering: Entering,
    pub(crate) passing: Passing,
    pub(crate) slides: u64,
    pub(crate) leaving: Leaving,
}

impl Model for Candidates {
    ghost use Rattle.std.specs.Prelude.{List, ◌++◌};
    ghost use Rattle.cf_bind.specs.declared.moves.Move.{Move};
    ghost use Rattle.cf_index.specs.Listed.{entering_moves, passing_moves, slides_of, leaving_moves};

    ghost Value = { List Move };

    ghost view = { λ c. entering_moves c.entering ++ (passing_moves c.passing ++ (slides_of c.slides ++ leaving_moves c.leaving)) };
}

impl Candidates {
    /// No candidates. This takes no memory, so it never fails.
    #[tactic(auto, using(crate::proofs::Parts::nothing), unfolding(crate::specs::Listed::entering_moves, crate::specs::Listed::passing_moves, crate::specs::Listed::leaving_moves))]
    pub fn new(_alloc: Global) -> Result<Candidates, AllocError>
        ensures { result ≡ Ok [] }
    {
        Ok(Candidates {
            entering: Entering {
                next: false,
                taken: false,
                wait: false,
                emit: false,
            },
            passing: Passing {
                climb: 0,
                fall: 0,
                meet: 0,
                execute: 0,
                send: 0,
                launch: 0,
            },
            slides: 0,
            leaving: Leaving {
                access: false,
                recover: 0,
                leave: false,
                exit: false,
                serve: false,
            },
        })
    }

    /// How many there are: at most 296.
    #[inline(always)]
    #[tactic(auto, using(crate::proofs::Parts::lengths))]
    pub fn len(&self) -> usize
        ensures { result ≡ length self.now }
    {
        self.entering.len() + self.passing.len() + count(self.slides) + self.leaving.len()
    }

    /// Whether there are none.
    #[inline(always)]
    pub fn is_empty(&self) -> bool
        ensures { result ≡ nat_eq (length self.now) 0 }
    {
        self.len() == 0
    }

    /// The move at this index, counted from 0.
    #[inline(always)]
    pub fn pick(&self, i: usize) -> Move
        requires { i < length self.now }
        ensures { Some result ≡ slice_get self.now i }
    {
        let entering = self.entering.len();
        if i < entering {
            return self.entering.get(i);
        }
        let i = i - entering;
        let passing = self.passing.len();
        if i < passing {
            return self.passing.get(i);
        }
        let i = i - passing;
        let slides = count(self.slides);
        if i < slides {
            let place = nth(self.slides, i);
            Move::Slide(place / 8, place % 8)
        } else {
            self.leaving.get(i - slides)
        }
    }

    /// Removes each Issue, unless there is no other candidate.
    #[inline(always)]
    pub fn hold(&mut self)
        ensures { self.new ≡ held_back self.old }
    {
        let others = self.entering.others();
        if others.len() + self.passing.len() + count(self.slides) + self.leaving.len() > 0 {
            self.entering = others;
        }
    }
}
