//! The outcome of a command once its report was written.

ghost use Rattle.std.specs.Prelude.{◌≡◌};
ghost use Rattle.cli_files.specs.Outside.{report_in};
ghost use Rattle.cli_reports.specs.Reporting.{PutsInto, PutsDecided};

use cf_io::{Failed, Sink, put_all};
use cli_files::{Answer, Status};

/// The outcome of a command that was carried out.
#[derive(Drop)]
pub struct Reported {
    /// How it ended.
    pub status: Status,

    /// Whether its whole report was written.
    pub put: Result<(), Failed>,
}

/// Writes the closing lines of a report.
pub fn put_answer<R: Sink>(answer: Answer, report: &mut R) -> Reported
    ensures status { result.status ≡ answer.status }
    ensures puts { PutsInto R.Sink report.old report.new answer.closing result.put }
{
    let put = put_all(report, answer.closing.bytes());
    Reported {
        status: answer.status,
        put,
    }
}

/// The same, after a report that may have failed before.
pub fn put_decided<R: Sink>(
    decided: Result<Answer, Failed>,
    report: &mut R,
) -> Result<Reported, Failed>
    ensures { PutsDecided decided (report_in R.Sink report.old) (report_in R.Sink report.new) result }
{
    match decided {
        Ok(answer) => Ok(put_answer(answer, report)),
        Err(failed) => Err(failed),
    }
}
