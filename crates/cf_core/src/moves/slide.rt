//! Slide: the operation in a cell of a siding moves to the next cell.

ghost use Rattle.std.specs.Prelude.{◌≡◌, ℕ, ◌/◌, ◌%◌, None};
ghost use Rattle.cf_bind.specs.declared.moves.Move.TheVariants as mv;
ghost use Rattle.cf_layout.specs.Words.{has_bit};
ghost use Rattle.cf_semantics.specs.moves.Bars.{row_bar};
ghost use Rattle.cf_core.specs.Masks.{is_allowed};
ghost use Rattle.cf_core.specs.Processors.{IsProcessor, after_move};

use crate::counterflow::Core;
use crate::processor::Processor;
use crate::rows::first_of;
use cf_bind::Bar;

impl Processor {
    /// The first bar of Slide from this cell of the siding; both are counted from 0.
    #[inline(always)]
    #[tactic(auto, using(crate::proofs::Berths::berths))]
    pub(crate) fn slide_bar(&self, k: u32, c: u32) -> Option<Bar>
        requires { IsProcessor self.now.plan self.now.state }
        ensures { result ≡ row_bar self.now.plan self.now.state (mv.Slide k c) }
    {
        if self.cells_in(k).saturating_sub(1) <= c {
            return Some(Bar::NoSuchSite);
        }
        first_of(&[
            (self.sidings.cell(k, c).is_none(), Bar::OpNotThere),
            (self.sidings.cell(k, c + 1).is_some(), Bar::Occupied),
        ])
    }

    /// The operation in the cell of a siding moves to the next one.
    #[inline(never)]
    #[tactic(auto, unfolding(cf_sidings::specs::Sidings::moved_on, cf_semantics::specs::moves::Moves::moved))]
    pub(crate) fn slide(&mut self, k: u32, c: u32)
        requires { row_bar self.old.plan self.old.state (mv.Slide k c) ≡ None }
        ensures { self.new ≡ after_move self.old (mv.Slide k c) }
    {
        self.sidings.slide(k, c);
    }
}

impl Core {
    /// The cells from which Slide is allowed: bit 8k + c for cell c of siding k, both counted from 0.
    #[inline(always)]
    #[tactic(auto, using(crate::proofs::moves::Allows::sliding))]
    pub fn slides(&self) -> u64
        ensures { (j : ℕ) → has_bit result j ≡ is_allowed self.now.plan self.now.state (mv.Slide (j / 8) (j % 8)) }
    {
        let processor = &self.processor;
        if processor.goes_on() {
            processor.sidings.sliding()
        } else {
            0
        }
    }
}
