//! The layouts that arguments of the command line name.

ghost use Rattle.std.specs.Prelude.{IfOk, IfErr};
ghost use Rattle.cli_arguments.specs.Arguments.{in_file};
ghost use Rattle.cli_arguments.specs.Views.{layout_of};
ghost use Rattle.layout_file.specs.Answers.{Describes};
ghost use Rattle.cli_files.specs.Layouts.{IsNoLayout, IsLayoutAt, LacksLayout};
ghost use Rattle.cli_files.specs.ReadsFiles.{ReadsFiles};

use crate::answer::{Answer, no_memory, unread};
use crate::status::{Status, Which};
use cf_io::{Files, FilesErr};
use cf_layout::{Layout, plain};
use cli_arguments::LayoutArgument;
use layout_file::{FileErr, MOST_LAYOUT, read_layout};
use report_refusals::bad_layout;
use std::alloc::Global;

/// The maximum length of a layout file, in bytes.
const MOST_BYTES: u64 = MOST_LAYOUT as u64;

/// The layout that a file of this content describes, or the answer if it describes none.
fn read_content(alloc: Global, file: &[u8]) -> Result<Layout, Answer>
    ensures ok { IfOk result (λ layout. Describes file.now layout) }
    ensures refused { IfErr result (λ answer. IsNoLayout file.now answer.status answer.closing) }
{
    match read_layout(alloc, file) {
        Ok(layout) => Ok(layout),
        Err(FileErr::NoMemory) => Err(no_memory()),
        Err(error) => {
            let closing = bad_layout(&error);
            let status = Status::BadLayout(error);
            Err(Answer { status, closing })
        }
    }
}

/// The layout in the file of this name, or the answer if it gives none.
fn read_file<F: Files>(alloc: Global, name: &str, files: &mut F) -> Result<Layout, Answer>
    ensures { ReadsFiles (IsLayoutAt (in_file name.now)) (LacksLayout (in_file name.now)) F.Files files.old files.new result }
{
    match files.read(alloc, name, MOST_BYTES + 1) {
        Ok(file) => read_content(alloc, file.as_slice()),
        Err(FilesErr::Failed) => Err(unread(Which::Layout)),
        Err(FilesErr::NoMemory) => Err(no_memory()),
    }
}

/// The layout that the argument names, or the answer if it names none.
pub fn layout_at<F: Files>(
    alloc: Global,
    argument: LayoutArgument<'_>,
    files: &mut F,
) -> Result<Layout, Answer>
    ensures { ReadsFiles (IsLayoutAt (layout_of argument.entry)) (LacksLayout (layout_of argument.entry)) F.Files files.old files.new result }
{
    match argument {
        LayoutArgument::Plain => Ok(plain()),
        LayoutArgument::File(name) => read_file(alloc, name, files),
    }
}
