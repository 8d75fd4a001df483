//! Whether anything is in the processor.

ghost use Rattle.std.specs.List.{list_any};
ghost use Rattle.std.specs.Prelude.{◌≡◌};
ghost use Rattle.cf_semantics.specs.state.Drained.{is_drained, is_empty};
ghost use Rattle.cf_semantics.specs.state.Options.{is_some};

use crate::counterflow::Core;
use crate::processor::Processor;

impl Processor {
    /// Whether no register is requested.
    #[inline(always)]
    #[tactic(auto, using(crate::proofs::Empty::emptying))]
    fn is_lane_empty(&self) -> bool
        ensures { result ≡ is_empty self.now.state.lane }
    {
        self.ends.lane_len() == 0
    }
}

impl Core {
    /// Whether any siding holds an operation.
    #[inline(always)]
    pub fn holds_operations(&self) -> bool
        ensures { result ≡ list_any (list_any is_some) self.now.state.sidings }
    {
        self.processor.sidings.hold_some()
    }

    /// Whether there is no instruction, result, request or operation anywhere.
    #[inline(always)]
    #[tactic(auto, unfolding(cf_semantics::specs::state::Drained::is_drained))]
    pub fn drained(&self) -> bool
        ensures { result ≡ is_drained self.now.state }
    {
        let processor = &self.processor;
        processor.stages.is_empty() && processor.is_lane_empty() && !processor.sidings.hold_some()
    }
}
