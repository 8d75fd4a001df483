//! Sinks of a report, which may gather what is written to them.

ghost use Rattle.std.specs.Prelude.{◌≡◌, ◌<◌, ℕ, List, [], OnErr, OnOk, length};
ghost use Rattle.cf_io.specs.Causes.{HasCause};
ghost use Rattle.cf_io.specs.Puts.{WritesNothing};

use cf_io::{Failed, MemSink, Nowhere, Sink, StdSink};
use std::io::Write;

/// A sink that may gather what is written to it before it passes it on to where the report is read.
pub trait ReportSink: Sink {
    /// The bytes that were written to it and not yet passed on.
    ghost kept: { Self → List ℕ };

    /// Lets the sink gather from now on.
    fn gather(&mut self)
        ensures written { Self.written self.new ≡ Self.written self.old }
        ensures faults { Self.faults self.new ≡ Self.faults self.old };

    /// Passes on what was gathered. What was written does not change, even if this fails; then some of it is still
    /// kept, and the count of faults has risen.
    fn pass_on(&mut self) -> Result<(), Failed>
        ensures written { WritesNothing (Self.written self.old) (Self.written self.new) }
        ensures passed { OnOk result (kept self.new ≡ []) }
        ensures held { OnErr result (0 < length (kept self.new)) }
        ensures cause { HasCause (Self.faults self.old) (Self.faults self.new) result };
}

impl ReportSink for MemSink {
    ghost kept = { λ _. [] };

    #[inline(always)]
    fn gather(&mut self) {}

    #[inline(always)]
    fn pass_on(&mut self) -> Result<(), Failed> {
        Ok(())
    }
}

impl<W: Write + Drop> ReportSink for StdSink<W> {
    ghost kept = { λ _. [] };

    #[inline(always)]
    fn gather(&mut self) {}

    #[inline(always)]
    fn pass_on(&mut self) -> Result<(), Failed> {
        Ok(())
    }
}

impl ReportSink for Nowhere {
    ghost kept = { λ _. [] };

    #[inline(always)]
    fn gather(&mut self) {}

    #[inline(always)]
    fn pass_on(&mut self) -> Result<(), Failed> {
        Ok(())
    }
}
