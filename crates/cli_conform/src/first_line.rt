//! The first line of the report of a log.
#![tactic(auto, unfolding(crate::specs::LogLines::log_refusal, crate::specs::LogLines::bad_log_line, crate::specs::LogLines::log_line))]

ghost use Rattle.std.specs.Prelude.{◌≡◌, ◌+◌, ◌≤◌, ◌++◌, length};
ghost use Rattle.texts.specs.Room.{page_room};
ghost use Rattle.cf_conform.specs.declared.answer.Conformed.TheVariants as answer;
ghost use Rattle.cli_conform.specs.LogLines.{bad_log_line, log_line, log_refusal};

use cf_conform::Conformed;
use cf_log::LogKind;
use report_closing::run_line;
use report_refusals::push_bar;
use texts::Page;

/// Appends why a line of a log is refused.
fn push_kind(page: &mut Page, kind: LogKind)
    requires { length page.old + 40 ≤ page_room }
    ensures text { page.new ≡ page.old ++ log_refusal kind }
    ensures size { length page.new ≤ length page.old + 40 }
{
    match kind {
        LogKind::TooLong => page.push(b"TooLong"),
        LogKind::NotAscii => page.push(b"NotAscii"),
        LogKind::BadTime => page.push(b"BadTime"),
        LogKind::UnknownLine => page.push(b"UnknownLine"),
        LogKind::BadNumber => page.push(b"BadNumber"),
        LogKind::ExtraWords => page.push(b"ExtraWords"),
        LogKind::Barred(bar) => {
            page.push(b"Barred ");
            push_bar(page, bar);
        }
        LogKind::Differs => page.push(b"Differs"),
    }
}

/// The line of a log that is refused, and why.
fn bad_page(line: u32, kind: LogKind) -> Page
    ensures text { result ≡ bad_log_line line kind }
    ensures size { length result ≤ 80 }
{
    let mut page = Page::new();
    page.push(b"bad log line ");
    page.push_decimal(u64::from(line));
    page.push(b": ");
    push_kind(&mut page, kind);
    page.push(b"\n");
    page
}

/// The number of moves of a log that has ended.
fn end_page(moves: u64) -> Page
    ensures text { result ≡ log_line 0 moves answer.LogEnd }
    ensures size { length result ≤ 80 }
{
    let mut page = Page::new();
    page.push(b"log end after ");
    page.push_decimal(moves);
    page.push(b" moves\n");
    page
}

/// The line that says how processing a log finished under a limit, with this many moves made.
pub(crate) fn log_page(limit: u64, moves: u64, answer: Conformed) -> Page
    ensures text { result ≡ log_line limit moves answer }
    ensures size { length result ≤ 80 }
{
    match answer {
        Conformed::Ran(ran) => run_line(limit, ran),
        Conformed::LogEnd => end_page(moves),
        Conformed::BadLog(refusal) => bad_page(refusal.line, refusal.kind),
        Conformed::Differs { line, .. } => bad_page(line, LogKind::Differs),
    }
}
