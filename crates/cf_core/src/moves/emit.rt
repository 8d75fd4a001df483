//! Emit: the register file answers the first request, and the result enters the highest stage.

ghost use Rattle.std.specs.Prelude.{◌≡◌, None};
ghost use Rattle.cf_bind.specs.declared.moves.Move.TheVariants as mv;
ghost use Rattle.cf_semantics.specs.moves.Bars.{row_bar};
ghost use Rattle.cf_core.specs.Marks.{row_allows};
ghost use Rattle.cf_core.specs.Masks.{is_allowed};
ghost use Rattle.cf_core.specs.Processors.{IsProcessor, after_move};

use crate::counterflow::Core;
use crate::processor::Processor;
use crate::rows::first_of;
use cf_bind::Bar;

impl Processor {
    /// The first bar of Emit.
    #[inline(always)]
    pub(crate) fn emit_bar(&self) -> Option<Bar>
        requires { IsProcessor self.now.plan self.now.state }
        ensures { result ≡ row_bar self.now.plan self.now.state mv.Emit }
    {
        if self.ends.lane_len() == 0 {
            return Some(Bar::LaneEmpty);
        }
        first_of(&[(self.top().packet.is_some(), Bar::Occupied)])
    }

    /// Whether no test in the row of Emit holds; it does not say which one does.
    #[inline(always)]
    #[tactic(auto, using(crate::proofs::moves::Allows::emit_free))]
    fn emits(&self) -> bool
        requires { IsProcessor self.now.plan self.now.state }
        ensures { result ≡ row_allows self.now.plan self.now.state mv.Emit }
    {
        self.ends.lane_len() != 0 && !self.stages.has_packet(self.stages.count())
    }

    /// The register file answers the first request.
    #[inline(always)]
    #[tactic(auto, unfolding(cf_semantics::specs::moves::Moves::moved))]
    pub(crate) fn emit(&mut self)
        requires facts { IsProcessor self.old.plan self.old.state }
        requires allowed { row_bar self.old.plan self.old.state mv.Emit ≡ None }
        ensures { self.new ≡ after_move self.old mv.Emit }
    {
        let packet = self.ends.answer();
        self.stages.put_packet(self.stages.count(), packet, false);
    }
}

impl Core {
    /// Whether Emit is allowed.
    #[inline(always)]
    #[tactic(auto, using(crate::proofs::moves::Allows::allowing))]
    pub fn may_emit(&self) -> bool
        ensures { result ≡ is_allowed self.now.plan self.now.state mv.Emit }
    {
        let processor = &self.processor;
        processor.goes_on() && processor.emits()
    }
}
