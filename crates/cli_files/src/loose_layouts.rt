//! The layouts that arguments of the command line name, if a layout may break the rule on where control turns.

ghost use Rattle.std.specs.Prelude.{IfOk, IfErr};
ghost use Rattle.cli_arguments.specs.Arguments.{in_file};
ghost use Rattle.cli_arguments.specs.Views.{layout_of};
ghost use Rattle.layout_file.specs.Answers.{DescribesLoosely};
ghost use Rattle.cli_files.specs.LooseLayouts.{IsLooseLayoutAt, IsNoLooseLayout, LacksLooseLayout};
ghost use Rattle.cli_files.specs.ReadsFiles.{ReadsFiles};

use crate::answer::{Answer, no_memory, unread};
use crate::status::{Status, Which};
use cf_io::{Files, FilesErr};
use cf_layout::{LooseLayout, plain};
use cli_arguments::LayoutArgument;
use layout_file::{FileErr, MOST_LAYOUT, read_layout_loosely};
use report_refusals::bad_layout;
use std::alloc::Global;

/// The maximum length of a layout file, in bytes.
const MOST_BYTES: u64 = MOST_LAYOUT as u64;

/// The layout that a file of this content describes, or the answer if it describes none.
fn read_loosely(alloc: Global, file: &[u8]) -> Result<LooseLayout, Answer>
    ensures ok { IfOk result (λ layout. DescribesLoosely file.now layout) }
    ensures refused { IfErr result (λ answer. IsNoLooseLayout file.now answer.status answer.closing) }
{
    match read_layout_loosely(alloc, file) {
        Ok(layout) => Ok(layout),
        Err(FileErr::NoMemory) => Err(no_memory()),
        Err(error) => {
            let closing = bad_layout(&error);
            let status = Status::BadLayout(error);
            Err(Answer { status, closing })
        }
    }
}

/// The layout in the file of this name, or the answer if it gives none.
fn read_loose_file<F: Files>(
    alloc: Global,
    name: &str,
    files: &mut F,
) -> Result<LooseLayout, Answer>
    ensures { ReadsFiles (IsLooseLayoutAt (in_file name.now)) (LacksLooseLayout (in_file name.now)) F.Files files.old files.new result }
{
    match files.read(alloc, name, MOST_BYTES + 1) {
        Ok(file) => read_loosely(alloc, file.as_slice()),
        Err(FilesErr::Failed) => Err(unread(Which::Layout)),
        Err(FilesErr::NoMemory) => Err(no_memory()),
    }
}

/// The layout that the argument names, or the answer if it names none; a layout may break the rule on where control
/// turns, but no other.
pub fn loose_layout_at<F: Files>(
    alloc: Global,
    argument: LayoutArgument<'_>,
    files: &mut F,
) -> Result<LooseLayout, Answer>
    ensures { ReadsFiles (IsLooseLayoutAt (layout_of argument.entry)) (LacksLooseLayout (layout_of argument.entry)) F.Files files.old files.new result }
{
    match argument {
        LayoutArgument::Plain => Ok(*plain().loose()),
        LayoutArgument::File(name) => read_loose_file(alloc, name, files),
    }
}
