//! A text that a command writes to the output.

ghost use Rattle.cli_reports.specs.FileCommands.{AnswersByOutput, PutsOrFails};

use cf_io::{Sink, put_all};
use cli_files::{Answer, done, write_fault};

/// Writes a text to the output.
pub fn put_text<K: Sink>(text: &[u8], output: &mut K) -> Answer
    ensures { AnswersByOutput (PutsOrFails text.now) K.Sink output.old output.new result }
{
    match put_all(output, text) {
        Ok(()) => done(),
        Err(_) => write_fault(),
    }
}
