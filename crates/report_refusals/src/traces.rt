//! The report of a file that is not the trace of a run.
#![tactic(auto, unfolding(crate::specs::Traces::trace_refusal, crate::specs::Traces::line_number, crate::specs::Traces::trace_line_refusal, crate::specs::Traces::bad_trace))]

ghost use Rattle.std.specs.Prelude.{◌≡◌, ◌+◌, ◌≤◌, ◌++◌, length};
ghost use Rattle.report_refusals.specs.Traces.{trace_refusal, line_number, trace_line_refusal, bad_trace as report_of};
ghost use Rattle.texts.specs.Room.{page_room};

use crate::bars::push_bar;
use crate::faults::TraceFault;
use run_scripts::TraceKind;
use texts::Page;

/// Appends why a text is not the trace of a run: the name, and the bar of the move.
fn push_kind(page: &mut Page, kind: TraceKind)
    requires { length page.old + 30 ≤ page_room }
    ensures text { page.new ≡ page.old ++ trace_refusal kind }
    ensures size { length page.new ≤ length page.old + 30 }
{
    match kind {
        TraceKind::NotAMove => page.push(b"NotAMove"),
        TraceKind::Barred(bar) => {
            page.push(b"Barred ");
            push_bar(page, bar);
        }
        TraceKind::Differs => page.push(b"Differs"),
        TraceKind::Cut => page.push(b"Cut"),
    }
}

/// Appends the line that shows it.
fn push_place(page: &mut Page, number: u32)
    requires { length page.old + 30 ≤ page_room }
    ensures text { page.new ≡ page.old ++ line_number number }
    ensures size { length page.new ≤ length page.old + 30 }
{
    page.push(b" line ");
    page.push_decimal(u64::from(number));
}

fn push_fault(page: &mut Page, fault: TraceFault)
    requires { length page.old + 80 ≤ page_room }
    ensures text { page.new ≡ page.old ++ trace_line_refusal fault }
    ensures size { length page.new ≤ length page.old + 80 }
{
    match fault {
        TraceFault::TooLong => page.push(b": TooLong"),
        TraceFault::Line { line, kind } => {
            push_place(page, line);
            page.push(b": ");
            push_kind(page, kind);
        }
    }
}

/// The report of a file that is not the trace of a run.
pub fn bad_trace(fault: TraceFault) -> Page
    ensures { result ≡ report_of fault }
{
    let mut page = Page::new();
    page.push(b"bad trace");
    push_fault(&mut page, fault);
    page.push(b"\n");
    page
}
