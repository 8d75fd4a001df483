//! A look at the moves, which are shown one by one.

ghost use Rattle.cf_timed.specs.Looks.{look_further};

use crate::clock::Clock;
use crate::found_moves::FoundMoves;
use cf_bind::Move;
use cf_core::Core;
use cf_index::Visitor;

/// A look at the moves of a processor. What it finds is written where it is wanted, through one reference: a copy of its own
/// would have to be copied again.
// Of a value whose type has a model it is not known in the end that it holds the same reference, so this type has none.
#[derive(Drop)]
pub(crate) struct Looking<'a> {
    pub(crate) clock: &'a Clock,
    pub(crate) core: &'a Core,
    pub(crate) found: &'a mut FoundMoves,
}

impl<'a> Visitor for Looking<'a> {
    ghost after = { look_further };

    #[inline(always)]
    fn visit(&mut self, mv: Move) {
        let time = self.clock.capped(self.core, mv);
        if self.found.time() < time {
            return;
        }
        if time < self.found.time() {
            self.found.start(time, mv);
        } else {
            self.found.push(mv);
        }
    }
}
