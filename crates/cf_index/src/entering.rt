//! The candidates by which an instruction or a result enters the pipes.

ghost use Rattle.std.specs.Prelude.{◌≡◌, ◌<◌, ◌≤◌, Some, length, slice_get};
ghost use Rattle.cf_semantics.specs.moves.Candidates.{other_moves};
ghost use Rattle.cf_index.specs.Listed.{entering_moves};
ghost use Rattle.cf_index.specs.Most.{most_entering};
ghost use Rattle.cf_index.specs.Order.{passed_moves};

use cf_bind::{Guess, Move};

/// Issue by each guess other than an address, and Emit.
#[derive(Clone, Copy)]
pub(crate) struct Entering {
    pub(crate) next: bool,
    pub(crate) taken: bool,
    pub(crate) wait: bool,
    pub(crate) emit: bool,
}

impl Entering {
    /// How many there are.
    #[inline(always)]
    #[tactic(auto, unfolding(crate::specs::Listed::entering_moves))]
    pub(crate) fn len(&self) -> usize
        ensures count { result ≡ length (entering_moves self.now) }
        ensures most { result ≤ most_entering }
    {
        self.next as usize + self.taken as usize + self.wait as usize + self.emit as usize
    }

    /// The move at this index among them, counted from 0.
    #[inline(always)]
    #[tactic(auto, unfolding(crate::specs::Listed::entering_moves))]
    pub(crate) fn get(&self, i: usize) -> Move
        requires { i < length (entering_moves self.now) }
        ensures { Some result ≡ slice_get (entering_moves self.now) i }
    {
        let taken = self.next as usize;
        let wait = taken + self.taken as usize;
        let emit = wait + self.wait as usize;
        if i < taken {
            Move::Issue(Guess::Next)
        } else if i < wait {
            Move::Issue(Guess::Taken)
        } else if i < emit {
            Move::Issue(Guess::Wait)
        } else {
            Move::Emit
        }
    }

    /// Those that are not Issues.
    #[inline(always)]
    #[tactic(auto, unfolding(crate::specs::Listed::entering_moves))]
    pub(crate) fn others(&self) -> Entering
        ensures { entering_moves result ≡ other_moves (entering_moves self.now) }
    {
        Entering {
            next: false,
            taken: false,
            wait: false,
            emit: self.emit,
        }
    }

    /// The index of the first that comes after this move in the order of all moves.
    #[inline(always)]
    #[tactic(auto, unfolding(crate::specs::Listed::entering_moves, crate::specs::Order::passed_moves))]
    pub(crate) fn passed(&self, last: Move) -> usize
        ensures count { result ≡ passed_moves last (entering_moves self.now) }
        ensures most { result ≤ most_entering }
    {
        match last {
            Move::Issue(guess) => match guess {
                Guess::Next => self.next as usize,
                Guess::Taken => self.next as usize + self.taken as usize,
                Guess::Wait | Guess::To(_) => {
                    self.next as usize + self.taken as usize + self.wait as usize
                }
            },
            _ => self.len(),
        }
    }
}
