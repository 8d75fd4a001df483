//! The report of a file that gives no delays.
#![tactic(auto, unfolding(crate::specs::Delays::delay_refusal, crate::specs::Delays::delay_line_refusal, crate::specs::Delays::bad_delays))]

ghost use Rattle.std.specs.Prelude.{◌≡◌, ◌+◌, ◌≤◌, ◌++◌, length};
ghost use Rattle.report_refusals.specs.Delays.{bad_delays as report_of, delay_line_refusal, delay_refusal};
ghost use Rattle.texts.specs.Room.{page_room};

use crate::faults::DelaysFault;
use run_scripts::{DelayErr, DelayKind};
use texts::Page;

fn push_kind(page: &mut Page, kind: DelayKind)
    requires { length page.old + 20 ≤ page_room }
    ensures text { page.new ≡ page.old ++ delay_refusal kind }
    ensures size { length page.new ≤ length page.old + 20 }
{
    match kind {
        DelayKind::NotAscii => page.push(b"NotAscii"),
        DelayKind::UnknownKind => page.push(b"UnknownKind"),
        DelayKind::KindTwice => page.push(b"KindTwice"),
        DelayKind::BadDelay => page.push(b"BadDelay"),
        DelayKind::ExtraWords => page.push(b"ExtraWords"),
    }
}

fn push_error(page: &mut Page, error: DelayErr)
    requires { length page.old + 60 ≤ page_room }
    ensures text { page.new ≡ page.old ++ delay_line_refusal error }
    ensures size { length page.new ≤ length page.old + 60 }
{
    page.push(b" line ");
    page.push_decimal(u64::from(error.line));
    page.push(b": ");
    push_kind(page, error.kind);
}

/// The report of a file that gives no delays: it is too long, or the first line that gives no delay, and why.
pub fn bad_delays(fault: DelaysFault) -> Page
    ensures { result ≡ report_of fault }
{
    let mut page = Page::new();
    match fault {
        DelaysFault::TooLong => page.push(b"bad delays: TooLong"),
        DelaysFault::Line(error) => {
            page.push(b"bad delays");
            push_error(&mut page, error);
        }
    }
    page.push(b"\n");
    page
}
