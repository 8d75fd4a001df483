//! The command `asm`.

ghost use Rattle.cli_reports.specs.FileCommands.{AnswersByFile, AnswersByOutput};
ghost use Rattle.cli_asm.specs.Sources.{AssemblesSource, AnswersAsm};

use crate::assembling::file_of;
use cf_io::{Files, FilesErr, Sink};
use cli_files::{Answer, Which, no_memory, unread};
use cli_reports::put_text;
use std::alloc::Global;

/// How much is read of a source: one byte more than it may have.
const MOST_SOURCE: u64 = 1_048_577;

/// Assembles a source that was read, and writes the file.
fn assemble_source<K: Sink>(alloc: Global, source: &[u8], output: &mut K) -> Answer
    ensures { AnswersByOutput (AssemblesSource source.now) K.Sink output.old output.new result }
{
    match file_of(alloc, source) {
        Ok(file) => put_text(file.as_slice(), output),
        Err(answer) => answer,
    }
}

/// Carries out `asm`: reads the source, assembles it, and writes the file to the output.
pub fn assemble_program<F: Files, K: Sink>(
    alloc: Global,
    source: &str,
    files: &mut F,
    output: &mut K,
) -> Answer
    ensures { AnswersByFile (AnswersAsm source.now) F.Files K.Sink (files.old, output.old) (files.new, output.new) result }
{
    match files.read(alloc, source, MOST_SOURCE) {
        Ok(bytes) => assemble_source(alloc, bytes.as_slice(), output),
        Err(FilesErr::Failed) => unread(Which::Source),
        Err(FilesErr::NoMemory) => no_memory(),
    }
}
