//! The first line of a closing report.
#![tactic(auto, unfolding(crate::specs::Lines::bad_line, crate::specs::Lines::barred_line, crate::specs::Lines::line_of_run, crate::specs::Lines::first_line))]

ghost use Rattle.std.specs.Prelude.{◌≡◌, ◌+◌, ◌≤◌, ◌++◌, length, codes, decimal};
ghost use Rattle.texts.specs.Lines.{line as line_of};
ghost use Rattle.texts.specs.Room.{page_room};
ghost use Rattle.report_closing.specs.Lines.{place_in_script, bad_line, barred_line, line_of_run, first_line};

use cf_bind::Bar;
use report_refusals::{push_bar, push_script};
use run_finishes::{Ran, Scripted};
use run_scripts::ScriptErr;
use texts::Page;

/// Appends what happened at this line of a script, before the cause.
#[tactic(auto, unfolding(crate::specs::Lines::place_in_script))]
fn push_place(page: &mut Page, what: &[u8], number: u32)
    requires { length page.old + length what.now + 22 ≤ page_room }
    ensures text { page.new ≡ page.old ++ place_in_script what.now number }
    ensures size { length page.new ≤ length page.old + length what.now + 22 }
{
    page.push(what);
    page.push_decimal(u64::from(number));
    page.push(b": ");
}

/// Appends the line of a script that is not a move, and why.
fn push_bad_line(page: &mut Page, refusal: ScriptErr)
    requires { length page.old + 80 ≤ page_room }
    ensures text { page.new ≡ page.old ++ bad_line refusal }
    ensures size { length page.new ≤ length page.old + 80 }
{
    push_place(page, b"bad script line ", refusal.line);
    push_script(page, refusal.kind);
    page.push(b"\n");
}

/// Appends the line of a script whose move is barred, and its bar.
fn push_barred(page: &mut Page, number: u32, bar: Bar)
    requires { length page.old + 80 ≤ page_room }
    ensures text { page.new ≡ page.old ++ barred_line number bar }
    ensures size { length page.new ≤ length page.old + 80 }
{
    push_place(page, b"barred at line ", number);
    push_bar(page, bar);
    page.push(b"\n");
}

/// Appends how many moves a script had.
fn push_script_end(page: &mut Page, moves: u64)
    requires { length page.old + 80 ≤ page_room }
    ensures text { page.new ≡ page.old ++ line_of (codes "script end after " ++ decimal moves ++ codes " moves") }
    ensures size { length page.new ≤ length page.old + 80 }
{
    page.push(b"script end after ");
    page.push_decimal(moves);
    page.push(b" moves\n");
}

/// Appends how a run finished, whatever its schedule.
fn push_ran(page: &mut Page, limit: u64, answer: Ran)
    requires { length page.old + 80 ≤ page_room }
    ensures text { page.new ≡ page.old ++ line_of_run limit answer }
    ensures size { length page.new ≤ length page.old + 80 }
{
    match answer {
        Ran::Exit(status) => page.push_counted(b"exit ", u64::from(status)),
        Ran::Trap { cause, pc, detail } => page.push_trap(cause, pc, detail),
        Ran::Limit => page.push_counted(b"limit ", limit),
        Ran::ReadFault => page.push_line(b"read fault input"),
        Ran::WriteFault => page.push_line(b"write fault output"),
        Ran::ReportFault => {}
    }
}

/// The line that says how a run finished, whatever its schedule: the first of its report. It is empty if the report
/// failed.
pub fn run_line(limit: u64, answer: Ran) -> Page
    ensures line { result ≡ line_of_run limit answer }
    ensures size { length result ≤ 80 }
{
    let mut page = Page::new();
    push_ran(&mut page, limit, answer);
    page
}

/// Appends the first line of a closing report: how the run of a script finished under a limit, with this many moves
/// made.
pub(crate) fn push_first_line(page: &mut Page, limit: u64, moves: u64, answer: Scripted)
    requires { length page.old + 80 ≤ page_room }
    ensures text { page.new ≡ page.old ++ first_line limit moves answer }
    ensures size { length page.new ≤ length page.old + 80 }
{
    match answer {
        Scripted::Ran(answer) => push_ran(page, limit, answer),
        Scripted::ScriptEnd => push_script_end(page, moves),
        Scripted::BadScript(refusal) => push_bad_line(page, refusal),
        Scripted::BarredAt { line, bar } => push_barred(page, line, bar),
    }
}
