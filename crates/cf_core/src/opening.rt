//! Whether the processor is as one that was just opened.

ghost use Rattle.std.specs.Prelude.{◌≡◌, ◌↔◌, IsTrue, length};
ghost use Rattle.std.specs.List.{list_any};
ghost use Rattle.cf_semantics.specs.moves.Bars.{running};
ghost use Rattle.cf_semantics.specs.state.Options.{is_some};
ghost use Rattle.cf_core.specs.Processors.{IsOpened};

use crate::counterflow::Core;
use crate::processor::Processor;
use cf_bind::Fetch;

/// Whether any value is cached.
fn has_value(cache: &[Option<u32>]) -> bool
    ensures { result ≡ list_any is_some cache.now }
{
    cache.iter().any(|value| value.is_some())
}

impl Processor {
    /// Whether fetch runs, at whatever address.
    fn fetches(&self) -> bool
        ensures { result ≡ is_some (running self.now.state.fetch) }
    {
        matches!(self.ends.fetch(), Fetch::Running(_))
    }

    /// Whether a value is cached for any register.
    fn caches_some(&self) -> bool
        ensures value { result ≡ list_any is_some self.now.state.cache }
        ensures width { length self.now.state.cache ≡ 32 }
    {
        has_value(&self.ends.cache())
    }
}

impl Core {
    /// Whether the processor is as if it had just been opened on some machine: nothing is in the pipes, in the lane or
    /// in a siding, fetch runs, the register cache is empty, and the program has neither ended nor failed.
    #[tactic(auto, using(crate::proofs::NewlyOpened::openings))]
    pub fn is_opened(&self) -> bool
        ensures { IsTrue result ↔ IsOpened self.now }
    {
        let processor = &self.processor;
        self.drained() && processor.fetches() && !processor.caches_some() && processor.goes_on()
    }
}
