//! The report of a trace that is the trace of a run.
#![tactic(auto, unfolding(crate::specs::Reports::trace_of))]

ghost use Rattle.std.specs.Prelude.{◌≡◌};
ghost use Rattle.cli_audit.specs.Reports.{trace_of as trace_text};

use texts::Page;

/// The report of the trace of a run of this many moves.
pub fn trace_of(moves: u64) -> Page
    ensures { result ≡ trace_text moves }
{
    let mut page = Page::new();
    page.push(b"trace of ");
    page.push_decimal(moves);
    page.push(b" moves\n");
    page
}
