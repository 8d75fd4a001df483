//! The traces that arguments of the command line name.

ghost use Rattle.std.specs.Prelude.{vec_items};
ghost use Rattle.cli_files.specs.ReadsFiles.{ReadsFiles};
ghost use Rattle.cli_audit.specs.Traces.{IsTraceAt, LacksTrace};

use cf_audit::MOST_TRACE;
use cf_io::{Files, FilesErr};
use cli_files::{Answer, Status, TraceFault, Which, no_memory, unread};
use report_refusals::bad_trace;
use std::alloc::Global;

/// The maximum length of a trace, in bytes.
const MOST_BYTES: u64 = MOST_TRACE as u64;

/// The text of the trace in the file of this name, or the answer if it gives none.
pub fn trace_at<F: Files>(alloc: Global, name: &str, files: &mut F) -> Result<Vec<u8>, Answer>
    ensures { ReadsFiles (λ before after text. IsTraceAt name.now before after (vec_items text)) (LacksTrace name.now) F.Files files.old files.new result }
{
    match files.read(alloc, name, MOST_BYTES + 1) {
        Ok(text) if text.len() as u64 > MOST_BYTES => Err(Answer {
            status: Status::BadTrace(TraceFault::TooLong),
            closing: bad_trace(TraceFault::TooLong),
        }),
        Ok(text) => Ok(text),
        Err(FilesErr::Failed) => Err(unread(Which::Trace)),
        Err(FilesErr::NoMemory) => Err(no_memory()),
    }
}
