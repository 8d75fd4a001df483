//! How far a run has come.
#![tactic(auto, unfolding(crate::specs::Progress::machine_line, crate::specs::Progress::moves_line, crate::specs::Progress::rounds_line))]

ghost use Rattle.std.specs.Prelude.{◌≡◌};
ghost use Rattle.cf_report.specs.Progress.{is_step as is_step_of, machine_line, moves_line, rounds_line};
ghost use Rattle.cf_report.specs.Putting.{PutsText};

use crate::putting::put_text;
use cf_io::{Failed, Sink};
use texts::Page;

/// Whether a line on the progress of a run is due after this many retired instructions: they are a multiple of the
/// step, if there is one.
#[inline(always)]
pub fn is_step(every: Option<u64>, retired: u64) -> bool
    ensures { result ≡ is_step_of every retired }
{
    match every {
        Some(every) => retired.is_multiple_of(every),
        None => false,
    }
}

/// Writes how many instructions the sequential machine has retired.
pub fn put_machine_progress<R: Sink>(retired: u64, report: &mut R) -> Result<(), Failed>
    ensures { PutsText (R.written report.old) (R.written report.new)
        (R.faults report.old) (R.faults report.new) (machine_line retired) result }
{
    let mut page = Page::new();
    page.push_counted(b"at ", retired);
    put_text(page.bytes(), report)
}

/// Writes how many instructions of a run of the processor have retired, and how many moves it has made.
pub fn put_moves_progress<R: Sink>(retired: u64, moves: u64, report: &mut R) -> Result<(), Failed>
    ensures { PutsText (R.written report.old) (R.written report.new)
        (R.faults report.old) (R.faults report.new) (moves_line retired moves) result }
{
    let mut page = Page::new();
    page.push(b"at ");
    page.push_decimal(retired);
    page.push_counted(b" moves ", moves);
    put_text(page.bytes(), report)
}

/// Writes how many instructions of a run in rounds have retired, and how many rounds and moves it has made.
pub fn put_rounds_progress<R: Sink>(
    retired: u64,
    rounds: u64,
    moves: u64,
    report: &mut R,
) -> Result<(), Failed>
    ensures { PutsText (R.written report.old) (R.written report.new)
        (R.faults report.old) (R.faults report.new) (rounds_line retired rounds moves) result }
{
    let mut page = Page::new();
    page.push(b"at ");
    page.push_decimal(retired);
    page.push(b" rounds ");
    page.push_decimal(rounds);
    page.push_counted(b" moves ", moves);
    put_text(page.bytes(), report)
}
