//! The delays that a file gives.

ghost use Rattle.std.specs.Prelude.{◌≡◌, ◌≤◌, IfOk, IfErr, Ok, length};
ghost use Rattle.cf_timed.specs.DelayLines.{delays_in};
ghost use Rattle.cf_timed.specs.Limits.{most_delays};
ghost use Rattle.cli_files.specs.ReadsFiles.{ReadsFiles};
ghost use Rattle.cli_files.specs.declared.status.Status.TheVariants.{BadDelays};
ghost use Rattle.cli_time.specs.DelayFiles.{IsDelaysAt, LacksDelays, RefusesText};
ghost use Rattle.report_refusals.specs.Delays.{bad_delays as bad_delays_text};

use cf_io::{Files, FilesErr};
use cf_timed::{Delays, MOST_DELAYS, read_delays};
use cli_files::{Answer, DelaysFault, Status, Which, no_memory, unread};
use report_refusals::bad_delays;
use std::alloc::Global;

/// The maximum length of a file of delays, in bytes.
const MOST_BYTES: u64 = MOST_DELAYS as u64;

fn refusal(fault: DelaysFault) -> Answer
    ensures status { result.status ≡ BadDelays fault }
    ensures closing { result.closing ≡ bad_delays_text fault }
{
    Answer {
        status: Status::BadDelays(fault),
        closing: bad_delays(fault),
    }
}

/// The delays that a text gives, or the answer if it gives none.
fn read_text(text: &[u8]) -> Result<Delays, Answer>
    ensures fits { IfOk result (λ delays. length text.now ≤ most_delays) }
    ensures told { IfOk result (λ delays. delays_in text.now ≡ Ok delays) }
    ensures refused { IfErr result (λ answer. RefusesText text.now answer.status answer.closing) }
{
    if text.len() as u64 > MOST_BYTES {
        return Err(refusal(DelaysFault::TooLong));
    }
    match read_delays(text) {
        Ok(delays) => Ok(delays),
        Err(error) => Err(refusal(DelaysFault::Line(error))),
    }
}

/// The delays that the file of this name gives, or the answer if it gives none. It reads one byte more than the file
/// may have.
pub(crate) fn delays_at<F: Files>(
    alloc: Global,
    name: &str,
    files: &mut F,
) -> Result<Delays, Answer>
    ensures { ReadsFiles (IsDelaysAt name.now) (LacksDelays name.now) F.Files files.old files.new result }
{
    match files.read(alloc, name, MOST_BYTES + 1) {
        Ok(text) => read_text(text.as_slice()),
        Err(FilesErr::Failed) => Err(unread(Which::Delays)),
        Err(FilesErr::NoMemory) => Err(no_memory()),
    }
}
