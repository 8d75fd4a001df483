//! How a session finishes: its status, and the closing line of its report.

ghost use Rattle.std.specs.Prelude.{◌≡◌};
ghost use Rattle.cli_files.specs.Outside.{report_in};
ghost use Rattle.cli_debug.specs.Closing.{ClosesSession, closing_of_session, session_broken, session_status};

use cf_debug::Debugged;
use cf_io::{Failed, Sink};
use cli_files::{Answer, Status, Which, done, line, unread, write_fault};
use cli_reports::{Reported, put_answer};

/// Whether the report failed during the session.
fn is_cut(ended: Debugged) -> bool
    ensures { result ≡ session_broken ended }
{
    matches!(ended, Debugged::ReportFault)
}

/// The answer of a session that ended in this way.
fn answer_of(ended: Debugged) -> Answer
    ensures status { result.status ≡ session_status ended }
    ensures closing { result.closing ≡ closing_of_session ended }
{
    match ended {
        Debugged::Done => done(),
        Debugged::Limit => Answer {
            status: Status::Limit(None),
            closing: line(b"limit"),
        },
        Debugged::ReadFault => unread(Which::Input),
        Debugged::WriteFault | Debugged::ReportFault => write_fault(),
    }
}

/// Writes the closing line of a session's report, if the commands did not end the session. It fails if the report
/// failed during the session; then nothing more is written to the report.
pub fn close_session<R: Sink>(ended: Debugged, report: &mut R) -> Result<Reported, Failed>
    ensures { ClosesSession ended (report_in R.Sink report.old) (report_in R.Sink report.new) result }
{
    if is_cut(ended) {
        return Err(Failed);
    }
    Ok(put_answer(answer_of(ended), report))
}
