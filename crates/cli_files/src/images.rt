//! A program that is loaded three times: on a machine, in a memory of its own, and as it was loaded.

ghost use Rattle.std.specs.Prelude.{◌≡◌, IfOk, IfErr, All, true, false};
ghost use Rattle.elf_view.specs.Refusal.{starts_with_elf};
ghost use Rattle.mem_regions.specs.Causes.{AreAccepted};
ghost use Rattle.mem_regions.specs.Loading.{LiesIn, loaded};
ghost use Rattle.cli_files.specs.Image.{IsProgramFile, hart_at_start};
ghost use Rattle.cli_files.specs.Programs.{IsNoProgram, IsProgramAt, LacksProgram};
ghost use Rattle.cli_files.specs.ReadsFiles.{ReadsFiles};

use crate::answer::{Answer, no_memory, unread};
use crate::opening::{MOST_BYTES, is_elf, open_again};
use crate::parts::{STACK, flat_part, parts_of};
use crate::programs::open_image;
use crate::status::Which;
use cf_io::{Files, FilesErr};
use elf_view::Elf;
use mem_changes::Image;
use mem_regions::{LoadErr, Part, Regions};
use rv_machine::Machine;
use std::alloc::{AllocError, Global};

/// A program, loaded three times: the three memories are the same.
#[derive(Drop)]
pub struct ProgramImages {
    /// The memory as it was loaded.
    pub image: Image,

    /// A memory that may change.
    pub mem: Regions,

    /// The machine that the program starts.
    pub machine: Machine,
}

/// The memory that is made from accepted parts of the file. It can be refused only for lack of memory.
#[tactic(auto, using(crate::proofs::LoadedAgain::accepted_parts))]
fn load(alloc: Global, file: &[u8], parts: &[Part]) -> Result<Image, AllocError>
    requires lie { All (LiesIn file.now) parts.now }
    requires accepted { AreAccepted parts.now }
    ensures { IfOk result (λ image. image ≡ loaded file.now parts.now) }
{
    match Image::load(alloc, file, parts) {
        Ok(image) => Ok(image),
        Err(LoadErr::NoMemory) => Err(AllocError),
        Err(_) => unreachable!(),
    }
}

/// The memory of a flat image.
#[tactic(auto, using(crate::proofs::LoadedAgain::images), unfolding(crate::specs::Image::hart_at_start))]
fn load_flat(alloc: Global, file: &[u8]) -> Result<Image, AllocError>
    requires program { IsProgramFile file.now }
    requires flat { starts_with_elf file.now ≡ false }
    ensures { IfOk result (λ image. image ≡ (hart_at_start file.now).mem) }
{
    load(alloc, file, &[flat_part(file.len() as u32), STACK])
}

/// The memory of an ELF file.
#[tactic(auto, using(crate::proofs::LoadedAgain::images, crate::proofs::Segments::segment_parts), unfolding(crate::specs::Image::hart_at_start))]
fn load_elf(alloc: Global, file: &[u8]) -> Result<Image, AllocError>
    requires program { IsProgramFile file.now }
    requires elf { starts_with_elf file.now ≡ true }
    ensures { IfOk result (λ image. image ≡ (hart_at_start file.now).mem) }
{
    let elf = match Elf::view(file) {
        Ok(elf) => elf,
        Err(_) => unreachable!(),
    };
    let (parts, count) = parts_of(&elf);
    load(alloc, file, &parts[..count])
}

/// The memory of a program file as it is loaded.
fn image_again(alloc: Global, file: &[u8]) -> Result<Image, AllocError>
    requires { IsProgramFile file.now }
    ensures { IfOk result (λ image. image ≡ (hart_at_start file.now).mem) }
{
    if is_elf(file) {
        load_elf(alloc, file)
    } else {
        load_flat(alloc, file)
    }
}

/// The memory of a machine.
fn memory_of(machine: Machine) -> Regions
    ensures { result ≡ machine.mem }
{
    machine.into_parts().mem
}

/// The machine that a program file starts, and its memory twice more.
fn load_twice_more(
    alloc: Global,
    file: &[u8],
    machine: Machine,
) -> Result<ProgramImages, AllocError>
    requires program { IsProgramFile file.now }
    requires machine { machine ≡ hart_at_start file.now }
    ensures machine { IfOk result (λ images. images.machine ≡ hart_at_start file.now) }
    ensures image { IfOk result (λ images. images.image ≡ (hart_at_start file.now).mem) }
    ensures memory { IfOk result (λ images. images.mem ≡ (hart_at_start file.now).mem) }
{
    let image = image_again(alloc, file)?;
    let again = open_again(alloc, file)?;
    Ok(ProgramImages {
        image,
        mem: memory_of(again),
        machine,
    })
}

/// The images of a program file, or the answer if it is not a program.
fn open_images(alloc: Global, file: &[u8]) -> Result<ProgramImages, Answer>
    ensures program { IfOk result (λ images. IsProgramFile file.now) }
    ensures machine { IfOk result (λ images. images.machine ≡ hart_at_start file.now) }
    ensures image { IfOk result (λ images. images.machine.mem ≡ images.image) }
    ensures memory { IfOk result (λ images. images.mem ≡ images.image) }
    ensures count { IfOk result (λ images. images.machine.retired ≡ 0) }
    ensures refused { IfErr result (λ answer. IsNoProgram file.now answer.status answer.closing) }
{
    let machine = match open_image(alloc, file) {
        Ok(machine) => machine,
        Err(answer) => return Err(answer),
    };
    match load_twice_more(alloc, file, machine) {
        Ok(images) => Ok(images),
        Err(_) => Err(no_memory()),
    }
}

/// The images of the program in the file of this name, or the answer if it gives none.
pub(crate) fn images_at<F: Files>(
    alloc: Global,
    name: &str,
    files: &mut F,
) -> Result<ProgramImages, Answer>
    ensures reads { ReadsFiles (λ before after images. IsProgramAt name.now before after images.machine) (LacksProgram name.now) F.Files files.old files.new result }
    ensures image { IfOk result (λ images. images.machine.mem ≡ images.image) }
    ensures memory { IfOk result (λ images. images.mem ≡ images.image) }
    ensures count { IfOk result (λ images. images.machine.retired ≡ 0) }
{
    match files.read(alloc, name, MOST_BYTES + 1) {
        Ok(file) => open_images(alloc, file.as_slice()),
        Err(FilesErr::Failed) => Err(unread(Which::Program)),
        Err(FilesErr::NoMemory) => Err(no_memory()),
    }
}
