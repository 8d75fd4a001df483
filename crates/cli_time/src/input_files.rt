//! The input of the program, from a file.

ghost use Rattle.std.specs.Prelude.{◌≡◌, IfOk, IfErr, option_map, vec_items};
ghost use Rattle.cf_io.specs.Causes.{HasCause};
ghost use Rattle.cli_files.specs.Causes.{reading_failed};
ghost use Rattle.cli_time.specs.InputFiles.{IsInput, IsInputAt, LacksInput};

use cf_io::{Files, FilesErr};
use cli_files::{Answer, Status, Which, line, no_memory, unread};
use std::alloc::Global;

/// The maximum length of an input, in bytes.
const MOST_INPUT: u64 = 16_777_216;

/// The bytes of the file of this name, or the answer if it gives no input. It reads one byte more than an input may
/// have.
fn bytes_at<F: Files>(alloc: Global, name: &str, files: &mut F) -> Result<Vec<u8>, Answer>
    ensures ok { IfOk result (λ bytes. IsInputAt name.now (F.told files.old) (F.told files.new) (vec_items bytes)) }
    ensures refused { IfErr result (λ answer. LacksInput (Some name.now)
        (F.told files.old) (F.told files.new) answer.status answer.closing) }
    ensures faults { HasCause (F.faults files.old) (F.faults files.new) (reading_failed result) }
{
    match files.read(alloc, name, MOST_INPUT + 1) {
        Ok(bytes) if bytes.len() as u64 > MOST_INPUT => Err(Answer {
            status: Status::BadInput,
            closing: line(b"bad input: TooLong"),
        }),
        Ok(bytes) => Ok(bytes),
        Err(FilesErr::Failed) => Err(unread(Which::Input)),
        Err(FilesErr::NoMemory) => Err(no_memory()),
    }
}

/// The program's input: the bytes of the named file, or the answer if it gives none. If no file is named the input is
/// empty.
pub(crate) fn input_at<F: Files>(
    alloc: Global,
    name: Option<&str>,
    files: &mut F,
) -> Result<Vec<u8>, Answer>
    ensures ok { IfOk result (λ bytes. IsInput (option_map (λ file. file.now) name.entry)
        (F.told files.old) (F.told files.new) (vec_items bytes)) }
    ensures refused { IfErr result (λ answer. LacksInput (option_map (λ file. file.now) name.entry)
        (F.told files.old) (F.told files.new) answer.status answer.closing) }
    ensures faults { HasCause (F.faults files.old) (F.faults files.new) (reading_failed result) }
{
    match name {
        Some(name) => bytes_at(alloc, name, files),
        None => Ok(Vec::new(alloc)),
    }
}
