//! The scripts that arguments of the command line name.

ghost use Rattle.std.specs.Prelude.{vec_items};
ghost use Rattle.cli_files.specs.ReadsFiles.{ReadsFiles};
ghost use Rattle.cli_files.specs.Scripts.{IsScriptAt, LacksScript};

use crate::answer::{Answer, no_memory, unread};
use crate::lines::line;
use crate::status::{Status, Which};
use cf_io::{Files, FilesErr};
use report_refusals::ScriptFault;
use run_scripts::MOST_SCRIPT;
use std::alloc::Global;

/// The maximum length of a script, in bytes.
const MOST_BYTES: u64 = MOST_SCRIPT as u64;

/// The text of the script in the file of this name, or the answer if it gives none.
pub fn script_at<F: Files>(alloc: Global, name: &str, files: &mut F) -> Result<Vec<u8>, Answer>
    ensures { ReadsFiles (λ before after text. IsScriptAt name.now before after (vec_items text)) (LacksScript name.now) F.Files files.old files.new result }
{
    match files.read(alloc, name, MOST_BYTES + 1) {
        Ok(text) if text.len() as u64 > MOST_BYTES => Err(Answer {
            status: Status::BadScript(ScriptFault::TooLong),
            closing: line(b"bad script: TooLong"),
        }),
        Ok(text) => Ok(text),
        Err(FilesErr::Failed) => Err(unread(Which::Script)),
        Err(FilesErr::NoMemory) => Err(no_memory()),
    }
}
