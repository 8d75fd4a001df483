//! What follows the report of a run.

ghost use Rattle.std.specs.Prelude.{◌≡◌};
ghost use Rattle.cli_files.specs.Outside.{report_in};
ghost use Rattle.cli_reports.specs.Reporting.{Adds, PutsInto};
ghost use Rattle.cli_run.specs.Tail.{tail_text};

use cf_core::Core;
use cf_io::{Failed, Sink};
use cli_files::Status;
use cli_reports::Reported;
use report_closing::put_moves;

/// What is to follow the report of a run.
#[derive(Clone, Copy)]
pub enum Tail {
    /// Nothing.
    Nothing,

    /// If the script has no further move, which moves can be made.
    Moves,
}

/// Writes the lines of the tail after a run of this status.
fn put_tail<R: Sink>(tail: Tail, status: &Status, core: &Core, report: &mut R) -> Result<(), Failed>
    ensures { PutsInto R.Sink report.old report.new (tail_text tail status.now core.now) result }
{
    match tail {
        Tail::Nothing => Ok(()),
        Tail::Moves => match status {
            Status::ScriptEnd(_) => put_moves(core, report),
            _ => Ok(()),
        },
    }
}

/// Writes the tail, if the report has been written so far.
pub fn add_tail<R: Sink>(tail: Tail, core: &Core, reported: Reported, report: &mut R) -> Reported
    ensures status { result.status ≡ reported.status }
    ensures adds { Adds reported.put (report_in R.Sink report.old)
        (report_in R.Sink report.new) (tail_text tail reported.status core.now) result.put }
{
    let put = match reported.put {
        Ok(()) => put_tail(tail, &reported.status, core, report),
        Err(failed) => Err(failed),
    };
    Reported {
        status: reported.status,
        put,
    }
}
