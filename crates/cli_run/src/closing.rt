//! How a run of the processor finishes: its status and its closing lines.

ghost use Rattle.std.specs.Prelude.{◌≡◌};
ghost use Rattle.report_closing.specs.Closing.{is_report_fault};
ghost use Rattle.cli_files.specs.Outside.{report_in};
ghost use Rattle.cli_processor.specs.Statuses.{status_of as status_for};
ghost use Rattle.cli_run.specs.Closing.{ClosesCore};

use cf_core::Core;
use cf_io::{Failed, Sink};
use cf_report::Tally;
use cf_run::{Ran, Scripted};
use cli_files::{ScriptFault, Status};
use cli_reports::{Reported, status_of_run};
use report_closing::put_closing;

/// Whether the report failed during the run.
fn is_cut(finish: Scripted) -> bool
    ensures { result ≡ is_report_fault finish }
{
    matches!(finish, Scripted::Ran(Ran::ReportFault))
}

/// The status of a run under this limit that finished in this way after that many moves.
fn status_of(limit: u64, moves: u64, finish: Scripted) -> Status
    ensures { result ≡ status_for limit moves finish }
{
    match finish {
        Scripted::Ran(finish) => status_of_run(limit, finish),
        Scripted::ScriptEnd => Status::ScriptEnd(moves),
        Scripted::BadScript(refusal) => Status::BadScript(ScriptFault::Line(refusal)),
        Scripted::BarredAt { line, bar } => Status::BarredAt { line, bar },
    }
}

/// Writes the closing lines after a run. It fails if the report failed during the run; then nothing more is written to
/// the report.
pub fn close<R: Sink>(
    core: &Core,
    limit: u64,
    finish: Scripted,
    tally: &Tally,
    report: &mut R,
) -> Result<Reported, Failed>
    ensures { ClosesCore limit finish core.now tally.now (report_in R.Sink report.old) (report_in R.Sink report.new) result }
{
    if is_cut(finish) {
        return Err(Failed);
    }
    Ok(Reported {
        status: status_of(limit, tally.moves, finish),
        put: put_closing(core, limit, finish, tally, report),
    })
}
