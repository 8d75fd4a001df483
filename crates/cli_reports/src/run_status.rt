//! The status that a run ends with.

ghost use Rattle.std.specs.Prelude.{◌≡◌};
ghost use Rattle.cli_reports.specs.RunStatuses.{status_of_run as status_for_run};

use cli_files::{Status, Which};
use run_finishes::Ran;

/// The status of a run under this limit that finished in this way, of the sequential machine or of the processor.
pub fn status_of_run(limit: u64, finish: Ran) -> Status
    ensures { result ≡ status_for_run limit finish }
{
    match finish {
        Ran::Exit(code) => Status::Exit(code),
        Ran::Trap { cause, pc, detail } => Status::Trap { cause, pc, detail },
        Ran::Limit => Status::Limit(Some(limit)),
        Ran::ReadFault => Status::ReadFault(Which::Input),
        Ran::WriteFault | Ran::ReportFault => Status::WriteFault,
    }
}
