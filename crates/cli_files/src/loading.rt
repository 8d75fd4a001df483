//! The layout and the program that a command works on.

ghost use Rattle.std.specs.Prelude.{◌≡◌, IfOk};
ghost use Rattle.cli_arguments.specs.Views.{layout_of};
ghost use Rattle.cli_files.specs.Loading.{IsLoaded, IsLoadedLoosely, LacksLoaded, LacksLoadedLoosely};
ghost use Rattle.cli_files.specs.ReadsFiles.{ReadsFiles};

use crate::answer::Answer;
use crate::images::{ProgramImages, images_at};
use crate::layouts::layout_at;
use crate::loose_layouts::loose_layout_at;
use crate::programs::program_at;
use cf_io::Files;
use cf_layout::{Layout, LooseLayout};
use cli_arguments::LayoutArgument;
use rv_machine::Machine;
use std::alloc::Global;

/// A layout, and the machine that a program starts.
#[derive(Drop)]
pub struct Loaded {
    pub layout: Layout,
    pub machine: Machine,
}

/// Reads the layout and then the program; or returns the answer of the first that is missing.
pub fn load<F: Files>(
    alloc: Global,
    layout: LayoutArgument<'_>,
    program: &str,
    files: &mut F,
) -> Result<Loaded, Answer>
    ensures reads { ReadsFiles (λ before after loaded. IsLoaded (layout_of layout.entry) program.now before after loaded.layout loaded.machine)
        (LacksLoaded (layout_of layout.entry) program.now) F.Files files.old files.new result }
    ensures count { IfOk result (λ loaded. loaded.machine.retired ≡ 0) }
{
    let layout = match layout_at(alloc, layout, files) {
        Ok(layout) => layout,
        Err(answer) => return Err(answer),
    };
    match program_at(alloc, program, files) {
        Ok(machine) => Ok(Loaded { layout, machine }),
        Err(answer) => Err(answer),
    }
}

/// A layout, and a program that is loaded three times.
#[derive(Drop)]
pub struct LoadedImages {
    pub layout: Layout,
    pub images: ProgramImages,
}

/// The same with a layout that may break the rule on where control turns.
#[derive(Drop)]
pub struct LooseImages {
    pub layout: LooseLayout,
    pub images: ProgramImages,
}

/// Reads the layout and then the program, which is loaded three times; or returns the answer of the first that is
/// missing.
pub fn load_images<F: Files>(
    alloc: Global,
    layout: LayoutArgument<'_>,
    program: &str,
    files: &mut F,
) -> Result<LoadedImages, Answer>
    ensures reads { ReadsFiles (λ before after loaded. IsLoaded (layout_of layout.entry) program.now before after loaded.layout loaded.images.machine)
        (LacksLoaded (layout_of layout.entry) program.now) F.Files files.old files.new result }
    ensures image { IfOk result (λ loaded. loaded.images.machine.mem ≡ loaded.images.image) }
    ensures memory { IfOk result (λ loaded. loaded.images.mem ≡ loaded.images.image) }
    ensures count { IfOk result (λ loaded. loaded.images.machine.retired ≡ 0) }
{
    let layout = match layout_at(alloc, layout, files) {
        Ok(layout) => layout,
        Err(answer) => return Err(answer),
    };
    match images_at(alloc, program, files) {
        Ok(images) => Ok(LoadedImages { layout, images }),
        Err(answer) => Err(answer),
    }
}

/// The same, if the layout may break the rule on where control turns.
pub fn load_images_loosely<F: Files>(
    alloc: Global,
    layout: LayoutArgument<'_>,
    program: &str,
    files: &mut F,
) -> Result<LooseImages, Answer>
    ensures reads { ReadsFiles (λ before after loaded. IsLoadedLoosely (layout_of layout.entry) program.now before after loaded.layout loaded.images.machine)
        (LacksLoadedLoosely (layout_of layout.entry) program.now) F.Files files.old files.new result }
    ensures image { IfOk result (λ loaded. loaded.images.machine.mem ≡ loaded.images.image) }
    ensures memory { IfOk result (λ loaded. loaded.images.mem ≡ loaded.images.image) }
    ensures count { IfOk result (λ loaded. loaded.images.machine.retired ≡ 0) }
{
    let layout = match loose_layout_at(alloc, layout, files) {
        Ok(layout) => layout,
        Err(answer) => return Err(answer),
    };
    match images_at(alloc, program, files) {
        Ok(images) => Ok(LooseImages { layout, images }),
        Err(answer) => Err(answer),
    }
}
