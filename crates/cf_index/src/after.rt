//! The first candidate that comes after a move.

ghost use Rattle.std.specs.Prelude.{◌≡◌, ◌<◌, ◌≤◌, length};
ghost use Rattle.cf_index.specs.Listed.{slides_of};
ghost use Rattle.cf_index.specs.Most.{most_of_kind};
ghost use Rattle.cf_index.specs.Order.{first_after, passed_moves};

use crate::bits::{count, count_below};
use crate::candidates::Candidates;
use cf_bind::Move;

/// The index, among the moves within the sidings, of the first that comes after the one from cell c of siding k.
#[inline(always)]
#[tactic(auto, using(crate::proofs::PassedEnds::passed_slides))]
pub(crate) fn passed_slides(slides: u64, k: u32, c: u32) -> usize
    ensures count { result ≡ passed_moves (Move.Slide k c) (slides_of slides) }
    ensures most { result ≤ most_of_kind }
{
    let cells = if c < 7 { c as usize + 1 } else { 8 };
    count_below(slides, 8 * k as usize + cells)
}

impl Candidates {
    /// The index of the first that comes after this move in the order of all moves.
    #[inline(always)]
    fn passed(&self, last: Move) -> usize
        ensures { result ≡ passed_moves last self.now }
    {
        match last {
            Move::Issue(_) | Move::Emit => self.entering.passed(last),
            Move::Climb(_)
            | Move::Fall(_)
            | Move::Meet(_)
            | Move::Execute(_)
            | Move::Send(_)
            | Move::Launch(_) => self.entering.len() + self.passing.passed(last),
            Move::Slide(k, c) => {
                self.entering.len() + self.passing.len() + passed_slides(self.slides, k, c)
            }
            Move::Access | Move::Recover(_) | Move::Leave | Move::Exit | Move::Serve => {
                self.entering.len()
                    + self.passing.len()
                    + count(self.slides)
                    + self.leaving.passed(last)
            }
        }
    }

    /// The index of the first that comes after the last move in the order of all moves. It is 0 if none does, or if
    /// there is no last move.
    #[inline(always)]
    #[tactic(auto, unfolding(crate::specs::Order::first_after, crate::specs::Order::passed_moves))]
    pub fn first_after(&self, last: Option<Move>) -> usize
        ensures place { result ≡ first_after last self.now }
        ensures within { 0 < length self.now → result < length self.now }
    {
        match last {
            None => 0,
            Some(mv) => {
                let passed = self.passed(mv);
                if passed < self.len() { passed } else { 0 }
            }
        }
    }
}
