//! Showing a move.
#![tactic(auto, unfolding(crate::specs::Made::shown))]

ghost use Rattle.std.specs.Prelude.{◌≡◌, ◌++◌};
ghost use Rattle.cf_report.specs.Putting.{PutsText};
ghost use Rattle.cf_run.specs.Made.{progress, retirement, retirement_and_progress, shown_after};

use cf_bind::Move;
use cf_core::{Core, Event};
use cf_io::{Failed, Sink};
use cf_report::{is_step, put_move, put_moves_progress, put_picture, put_retired};
use run_options::{Reporting, Show};

/// A move that was made: its number, and its event.
#[derive(Clone, Copy)]
struct NumberedMove {
    number: u64,
    mv: Move,
    event: Event,
}

/// Writes the line of the instruction that retired as the `n`th, if one did.
fn put_retirement<R: Sink>(n: u64, event: &Event, report: &mut R) -> Result<(), Failed>
    ensures { PutsText (R.written report.old) (R.written report.new)
        (R.faults report.old) (R.faults report.new) (retirement n event.now) result }
{
    match event {
        Event::Retired(line) => put_retired(n, line, report),
        Event::Plain | Event::Killed | Event::Died | Event::Ended(_) => Ok(()),
    }
}

/// Writes how far the run has come with a move, if an instruction retired with it and the count is then a multiple of
/// the step.
#[inline(always)]
fn put_progress<R: Sink>(
    every: Option<u64>,
    retired: u64,
    moves: u64,
    event: &Event,
    report: &mut R,
) -> Result<(), Failed>
    ensures { PutsText (R.written report.old) (R.written report.new)
        (R.faults report.old) (R.faults report.new) (progress every retired moves event.now) result }
{
    match event {
        Event::Retired(_) if is_step(every, retired) => put_moves_progress(retired, moves, report),
        Event::Retired(_) | Event::Plain | Event::Killed | Event::Died | Event::Ended(_) => Ok(()),
    }
}

/// Writes two texts, one after the other.
fn put_both<R: Sink>(
    every: Option<u64>,
    retired: u64,
    made: &NumberedMove,
    report: &mut R,
) -> Result<(), Failed>
    ensures { PutsText (R.written report.old) (R.written report.new)
        (R.faults report.old) (R.faults report.new)
        (retirement retired made.now.event ++ progress every retired made.now.number made.now.event) result }
{
    put_retirement(retired, &made.event, report)?;
    put_progress(every, retired, made.number, &made.event, report)
}

/// Writes the line of the instruction that retired with a move, if one did, and how far the run has come, if that is
/// shown.
fn put_retirement_and_progress<R: Sink>(
    every: Option<u64>,
    retired: u64,
    made: &NumberedMove,
    report: &mut R,
) -> Result<(), Failed>
    ensures { PutsText (R.written report.old) (R.written report.new)
        (R.faults report.old) (R.faults report.new)
        (retirement_and_progress every retired made.now.number made.now.event) result }
{
    match every {
        None => put_retirement(retired, &made.event, report),
        Some(_) => put_both(every, retired, made, report),
    }
}

/// Writes the lines that are shown of the instructions and moves, after a move that left the processor in this state.
// A page is large; as a local of the run's loop it would slow the loop down.
#[inline(never)]
fn put_lines<R: Sink>(
    core: &Core,
    reporting: Reporting,
    made: &NumberedMove,
    report: &mut R,
) -> Result<(), Failed>
    ensures { PutsText (R.written report.old) (R.written report.new)
        (R.faults report.old) (R.faults report.new)
        (shown_after reporting core.now made.now.number made.now.mv made.now.event) result }
{
    let every = reporting.every;
    let retired = core.retired();
    match reporting.show {
        Show::Report => put_progress(every, retired, made.number, &made.event, report),
        Show::Retired => put_retirement_and_progress(every, retired, made, report),
        Show::Moves => {
            put_move(made.number, made.mv, report)?;
            put_retirement_and_progress(every, retired, made, report)?;
            put_picture(core, report)
        }
    }
}

/// Writes the lines that are shown of the `n`th move, which left the processor in this state.
#[inline(always)]
fn put_some<R: Sink>(
    core: &Core,
    reporting: Reporting,
    n: u64,
    mv: Move,
    event: &Event,
    report: &mut R,
) -> Result<(), Failed>
    ensures { PutsText (R.written report.old) (R.written report.new)
        (R.faults report.old) (R.faults report.new)
        (shown_after reporting core.now n mv event.now) result }
{
    let made = NumberedMove {
        number: n,
        mv,
        event: *event,
    };
    put_lines(core, reporting, &made, report)
}

/// Writes what is to be shown of the `n`th move, which left the processor in this state. Most runs show nothing.
// The move and the event are passed by copy, so that they can stay in registers if nothing is shown. The two fields of
// `reporting` are read one after the other: a pair of them would be written to memory at each move.
#[inline(always)]
pub(crate) fn put_shown<R: Sink>(
    core: &Core,
    reporting: Reporting,
    n: u64,
    mv: Move,
    event: &Event,
    report: &mut R,
) -> Result<(), Failed>
    ensures { PutsText (R.written report.old) (R.written report.new)
        (R.faults report.old) (R.faults report.new)
        (shown_after reporting core.now n mv event.now) result }
{
    match reporting.show {
        Show::Report => match reporting.every {
            None => Ok(()),
            Some(_) => put_some(core, reporting, n, mv, event, report),
        },
        Show::Retired | Show::Moves => put_some(core, reporting, n, mv, event, report),
    }
}
