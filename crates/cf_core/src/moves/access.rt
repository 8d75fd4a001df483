//! Access: the load or store at the end of Memory's siding is made and answered.

ghost use Rattle.std.specs.Prelude.{◌≡◌, false, not, None};
ghost use Rattle.cf_bind.specs.declared.moves.Move.TheVariants as mv;
ghost use Rattle.cf_semantics.specs.moves.Bars.{row_bar};
ghost use Rattle.cf_semantics.specs.state.Options.{is_some, on};
ghost use Rattle.cf_core.specs.Marks.{row_allows};
ghost use Rattle.cf_core.specs.Masks.{is_allowed};
ghost use Rattle.cf_core.specs.Processors.{IsProcessor, after_move};

use crate::counterflow::Core;
use crate::processor::Processor;
use crate::rows::first_of;
use cf_bind::{Bar, Op};

/// Whether the cell has an operation without an answer.
#[inline(always)]
fn is_unanswered(cell: &Option<Op>) -> bool
    ensures { result ≡ on cell.now false (λ op. not (is_some op.answer)) }
{
    match cell {
        Some(op) => op.answer.is_none(),
        None => false,
    }
}

impl Processor {
    /// The first bar of Access.
    #[inline(always)]
    #[tactic(auto, using(crate::proofs::Ported::ported))]
    pub(crate) fn access_bar(&self) -> Option<Bar>
        requires { IsProcessor self.now.plan self.now.state }
        ensures { result ≡ row_bar self.now.plan self.now.state mv.Access }
    {
        let Some(op) = self.last_op(self.port()) else {
            return Some(Bar::OpNotThere);
        };
        first_of(&[(op.answer.is_some(), Bar::AlreadyDone)])
    }

    /// Whether no test in the row of Access holds; it does not say which one does.
    #[inline(always)]
    #[tactic(auto, using(crate::proofs::moves::Allows::access_free, crate::proofs::Ported::ported))]
    fn accesses(&self) -> bool
        requires { IsProcessor self.now.plan self.now.state }
        ensures { result ≡ row_allows self.now.plan self.now.state mv.Access }
    {
        is_unanswered(self.last_op(self.port()))
    }

    /// The load or store at the end of Memory's siding is made and answered.
    #[inline(never)]
    #[tactic(auto, using(crate::proofs::Ported::ported, crate::proofs::moves::KeptTemplates::accessing), unfolding(cf_sidings::specs::Sidings::after_access, cf_sidings::specs::Sidings::mem_after_access, cf_semantics::specs::moves::Moves::moved))]
    pub(crate) fn access(&mut self)
        requires facts { IsProcessor self.old.plan self.old.state }
        requires allowed { row_bar self.old.plan self.old.state mv.Access ≡ None }
        ensures { self.new ≡ after_move self.old mv.Access }
    {
        let port = self.port();
        self.sidings.access(port, &mut self.memory);
    }
}

impl Core {
    /// Whether Access is allowed.
    #[inline(always)]
    #[tactic(auto, using(crate::proofs::moves::Allows::allowing))]
    pub fn may_access(&self) -> bool
        ensures { result ≡ is_allowed self.now.plan self.now.state mv.Access }
    {
        let processor = &self.processor;
        processor.goes_on() && processor.accesses()
    }
}
