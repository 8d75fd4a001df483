//! How a run in rounds finishes: its status and its closing lines.

ghost use Rattle.std.specs.Prelude.{◌≡◌};
ghost use Rattle.run_finishes.specs.declared.finish.Scripted.TheVariants.{Ran as Finished};
ghost use Rattle.report_closing.specs.Closing.{is_report_fault};
ghost use Rattle.cli_files.specs.Outside.{report_in};
ghost use Rattle.cli_rounds.specs.Closing.{ClosesRounds};

use cf_core::Core;
use cf_io::{Failed, Sink};
use cf_report::Tally;
use cf_run::{Ran, Scripted};
use cli_reports::{Reported, status_of_run};
use report_closing::put_closing_in_rounds;

/// Whether the report failed during the run.
fn is_cut(finish: Ran) -> bool
    ensures { result ≡ is_report_fault (Finished finish) }
{
    matches!(finish, Ran::ReportFault)
}

/// Writes the closing lines after a run in this many rounds. It fails if the report failed during the run; then nothing
/// more is written to the report.
pub fn close_in_rounds<R: Sink>(
    core: &Core,
    limit: u64,
    finish: Ran,
    rounds: u64,
    tally: &Tally,
    report: &mut R,
) -> Result<Reported, Failed>
    ensures { ClosesRounds limit finish rounds core.now tally.now (report_in R.Sink report.old) (report_in R.Sink report.new) result }
{
    if is_cut(finish) {
        return Err(Failed);
    }
    Ok(Reported {
        status: status_of_run(limit, finish),
        put: put_closing_in_rounds(core, limit, Scripted::Ran(finish), rounds, tally, report),
    })
}
