//! The files that the command reads.

ghost use Rattle.std.specs.Prelude.{◌≡◌, IfOk, map, string_bytes, vec_items};
ghost use Rattle.cli_arguments.specs.Arguments.{layout_in};
ghost use Rattle.cli_files.specs.Image.{IsProgramFile, hart_at_start};
ghost use Rattle.cli_files.specs.Programs.{IsProgramAt, LacksProgram};
ghost use Rattle.cli_files.specs.ReadsFiles.{ReadsFiles};
ghost use Rattle.cli_time.specs.Asked.{files_asked};
ghost use Rattle.cli_time.specs.Reading.{DelaysAndLayoutsRead, TimeFilesRead, LacksTimeFile, LacksDelaysOrLayouts};

use crate::delay_files::delays_at;
use crate::layout_files::layouts_at;
use cf_io::{Files, FilesErr};
use cf_layout::Layout;
use cf_timed::Delays;
use cli_files::{Answer, MOST_BYTES, Which, no_memory, open_image, unread};
use std::alloc::Global;

/// What each run begins with: the delays, the layouts in their order, and the bytes of the program's file.
#[derive(Drop)]
pub(crate) struct ReadyTimes {
    pub(crate) delays: Delays,
    pub(crate) layouts: Vec<Layout>,
    pub(crate) image: Vec<u8>,
}

/// The bytes of the file of this name, if they are a program, or otherwise the answer.
fn image_at<F: Files>(alloc: Global, name: &str, files: &mut F) -> Result<Vec<u8>, Answer>
    ensures reads { ReadsFiles (λ before after image. IsProgramAt name.now before after (hart_at_start (vec_items image))) (LacksProgram name.now)
        F.Files files.old files.new result }
    ensures program { IfOk result (λ image. IsProgramFile (vec_items image)) }
{
    match files.read(alloc, name, MOST_BYTES + 1) {
        Ok(image) => match open_image(alloc, image.as_slice()) {
            Ok(_) => Ok(image),
            Err(answer) => Err(answer),
        },
        Err(FilesErr::Failed) => Err(unread(Which::Program)),
        Err(FilesErr::NoMemory) => Err(no_memory()),
    }
}

/// The delays, and the layouts in their order.
#[derive(Drop)]
struct DelaysAndLayouts {
    delays: Delays,
    layouts: Vec<Layout>,
}

/// Reads the delays and the layouts, in this order; or returns the answer of the first that is missing.
fn laid_at<F: Files>(
    alloc: Global,
    delays: &str,
    layouts: &[String],
    files: &mut F,
) -> Result<DelaysAndLayouts, Answer>
    ensures { ReadsFiles
        (λ before after laid. DelaysAndLayoutsRead delays.now (map layout_in (map string_bytes layouts.now)) before after laid.delays (vec_items laid.layouts))
        (LacksDelaysOrLayouts delays.now (map layout_in (map string_bytes layouts.now))) F.Files files.old files.new result }
{
    let delays = match delays_at(alloc, delays, files) {
        Ok(delays) => delays,
        Err(answer) => return Err(answer),
    };
    match layouts_at(alloc, layouts, files) {
        Ok(layouts) => Ok(DelaysAndLayouts { delays, layouts }),
        Err(answer) => Err(answer),
    }
}

/// Reads the delays, the layouts and the program, in this order; or returns the answer of the first that is missing.
pub(crate) fn read_files<F: Files>(
    alloc: Global,
    delays: &str,
    program: &str,
    layouts: &[String],
    files: &mut F,
) -> Result<ReadyTimes, Answer>
    ensures reads { ReadsFiles (λ before after ready. TimeFilesRead (files_asked delays.now program.now (map layout_in (map string_bytes layouts.now)))
        before after ready.delays (vec_items ready.layouts) (hart_at_start (vec_items ready.image)))
        (LacksTimeFile (files_asked delays.now program.now (map layout_in (map string_bytes layouts.now)))) F.Files files.old files.new result }
    ensures program { IfOk result (λ ready. IsProgramFile (vec_items ready.image)) }
{
    let laid = match laid_at(alloc, delays, layouts, files) {
        Ok(laid) => laid,
        Err(answer) => return Err(answer),
    };
    match image_at(alloc, program, files) {
        Ok(image) => Ok(ReadyTimes {
            delays: laid.delays,
            layouts: laid.layouts,
            image,
        }),
        Err(answer) => Err(answer),
    }
}
