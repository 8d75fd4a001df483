//! How a run of the sequential machine finishes: its closing lines.

ghost use Rattle.std.specs.Prelude.{◌≡◌};
ghost use Rattle.cli_files.specs.Outside.{report_in};
ghost use Rattle.cli_machine.specs.Closing.{ClosesMachine, report_failed};

use cf_io::{Failed, Sink};
use cli_reports::{Reported, status_of_run};
use report_closing::put_machine_closing;
use run_finishes::Ran;
use rv_machine::Machine;

/// Whether the report failed during the run.
fn is_cut(finish: Ran) -> bool
    ensures { result ≡ report_failed finish }
{
    matches!(finish, Ran::ReportFault)
}

/// Writes the closing lines after a run. It fails if the report failed during the run; then nothing more is written to
/// the report.
pub fn close_machine<R: Sink>(
    machine: &Machine,
    limit: u64,
    finish: Ran,
    report: &mut R,
) -> Result<Reported, Failed>
    ensures { ClosesMachine limit finish machine.now (report_in R.Sink report.old) (report_in R.Sink report.new) result }
{
    if is_cut(finish) {
        return Err(Failed);
    }
    Ok(Reported {
        status: status_of_run(limit, finish),
        put: put_machine_closing(limit, finish, machine.retired(), machine.regs(), report),
    })
}
