//! The programs that arguments of the command line name.

ghost use Rattle.std.specs.Prelude.{◌≡◌, IfOk, IfErr};
ghost use Rattle.cli_files.specs.Image.{IsProgramFile, hart_at_start};
ghost use Rattle.cli_files.specs.Programs.{IsProgramAt, LacksProgram, IsNoProgram};
ghost use Rattle.cli_files.specs.ReadsFiles.{ReadsFiles};

use crate::answer::{Answer, no_memory, no_program, unread};
use crate::opening::{MOST_BYTES, OpenErr, open};
use crate::status::Which;
use cf_io::{Files, FilesErr};
use rv_machine::Machine;
use std::alloc::Global;

/// The machine that a program file starts, or the answer if it starts none.
pub fn open_image(alloc: Global, image: &[u8]) -> Result<Machine, Answer>
    ensures program { IfOk result (λ machine. IsProgramFile image.now) }
    ensures machine { IfOk result (λ machine. machine ≡ hart_at_start image.now) }
    ensures count { IfOk result (λ machine. machine.retired ≡ 0) }
    ensures refused { IfErr result (λ answer. IsNoProgram image.now answer.status answer.closing) }
{
    match open(alloc, image) {
        Ok(machine) => Ok(machine),
        Err(OpenErr::Refused(error)) => Err(no_program(error)),
        Err(OpenErr::NoMemory) => Err(no_memory()),
    }
}

/// The machine that the program in the file of this name starts, or the answer if it gives none.
pub fn program_at<F: Files>(alloc: Global, name: &str, files: &mut F) -> Result<Machine, Answer>
    ensures reads { ReadsFiles (IsProgramAt name.now) (LacksProgram name.now) F.Files files.old files.new result }
    ensures count { IfOk result (λ machine. machine.retired ≡ 0) }
{
    match files.read(alloc, name, MOST_BYTES + 1) {
        Ok(image) => open_image(alloc, image.as_slice()),
        Err(FilesErr::Failed) => Err(unread(Which::Program)),
        Err(FilesErr::NoMemory) => Err(no_memory()),
    }
}
