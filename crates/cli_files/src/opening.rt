//! Opening a program file.

ghost use Rattle.std.specs.Prelude.{◌≡◌, ◌≤◌, IfOk, IfErr, MatchResult, All, length, true, false};
ghost use Rattle.elf_view.specs.Refusal.{starts_with_elf};
ghost use Rattle.mem_regions.specs.Causes.{AreAccepted};
ghost use Rattle.mem_regions.specs.Loading.{LiesIn, loaded};
ghost use Rattle.mem_regions.specs.Refusal.{refusal, refusal_told};
ghost use Rattle.rv_machine.specs.Machine.{start_hart};
ghost use Rattle.cli_files.specs.Image.{IsProgramFile, most_bytes, hart_at_start};
ghost use Rattle.cli_files.specs.Opening.{IsNotOpened};

use crate::parts::{FLAT_BASE, MOST_PARTS, STACK, count_parts, flat_part, parts_of};
use elf_view::Elf;
use mem_regions::{LoadErr, Part, Regions};
use report_refusals::ProgramErr;
use rv_machine::Machine;
use std::alloc::{AllocError, Global};

/// The maximum length of a program file, in bytes.
pub const MOST_BYTES: u64 = 33_554_432;

/// Why a program file was not opened.
pub enum OpenErr {
    /// It is not a program.
    Refused(ProgramErr),

    /// There was no memory for it.
    NoMemory,
}

/// Whether a file begins as an ELF file does.
pub fn is_elf(image: &[u8]) -> bool
    ensures { result ≡ starts_with_elf image.now }
{
    image.starts_with(b"\x7fELF")
}

/// A machine at the entry, with these parts of the file as its memory.
#[tactic(auto, using(mem_regions::proofs::Causes::causes))]
fn load(alloc: Global, image: &[u8], parts: &[Part], entry: u32) -> Result<Machine, LoadErr>
    requires { All (LiesIn image.now) parts.now }
    ensures accepted { IfOk result (λ machine. AreAccepted parts.now) }
    ensures machine { IfOk result (λ machine. machine ≡ start_hart (loaded image.now parts.now) entry) }
    ensures refused { IfErr result (λ error. refusal parts.now ≡ refusal_told error) }
    ensures unheld { result ≡ Err LoadErr.NoMemory → AreAccepted parts.now }
{
    let memory = Regions::load(alloc, image, parts)?;
    Ok(Machine::new(memory, entry))
}

#[tactic(auto, using(crate::proofs::Flat::flat), unfolding(crate::specs::Image::hart_at_start))]
fn open_flat(alloc: Global, image: &[u8]) -> Result<Machine, OpenErr>
    requires fits { length image.now ≤ most_bytes }
    requires flat { starts_with_elf image.now ≡ false }
    ensures program { IfOk result (λ machine. IsProgramFile image.now) }
    ensures machine { IfOk result (λ machine. machine ≡ hart_at_start image.now) }
    ensures refused { IfErr result (IsNotOpened image.now) }
{
    let flat = flat_part(image.len() as u32);
    match load(alloc, image, &[flat, STACK], FLAT_BASE) {
        Ok(machine) => Ok(machine),
        Err(LoadErr::NoMemory) => Err(OpenErr::NoMemory),
        Err(_) => unreachable!(),
    }
}

#[tactic(auto, using(crate::proofs::Segments::segment_parts), unfolding(crate::specs::Image::hart_at_start))]
fn open_elf(alloc: Global, image: &[u8]) -> Result<Machine, OpenErr>
    requires fits { length image.now ≤ most_bytes }
    requires elf { starts_with_elf image.now ≡ true }
    ensures program { IfOk result (λ machine. IsProgramFile image.now) }
    ensures machine { IfOk result (λ machine. machine ≡ hart_at_start image.now) }
    ensures refused { IfErr result (IsNotOpened image.now) }
{
    let elf = match Elf::view(image) {
        Ok(elf) => elf,
        Err(error) => return Err(OpenErr::Refused(ProgramErr::Elf(error))),
    };
    let count = count_parts(&elf);
    if count > MOST_PARTS {
        let error = LoadErr::TooMany(count);
        return Err(OpenErr::Refused(ProgramErr::Load(error)));
    }
    let (parts, count) = parts_of(&elf);
    match load(alloc, image, &parts[..count], elf.entry()) {
        Ok(machine) => Ok(machine),
        Err(LoadErr::NoMemory) => Err(OpenErr::NoMemory),
        Err(error) => Err(OpenErr::Refused(ProgramErr::Load(error))),
    }
}

/// The machine that a program file starts. A file that begins as an ELF file is one: its segments that take up memory
/// are loaded, and the machine begins at its entry. Any other file is a flat image, in one region that may be read,
/// written and executed, and begins there. The stack comes after them.
#[tactic(auto, unfolding(crate::specs::Image::hart_at_start))]
pub fn open(alloc: Global, image: &[u8]) -> Result<Machine, OpenErr>
    ensures program { IfOk result (λ machine. IsProgramFile image.now) }
    ensures machine { IfOk result (λ machine. machine ≡ hart_at_start image.now) }
    ensures count { IfOk result (λ machine. machine.retired ≡ 0) }
    ensures refused { IfErr result (IsNotOpened image.now) }
{
    if image.len() as u64 > MOST_BYTES {
        return Err(OpenErr::Refused(ProgramErr::TooLong));
    }
    if is_elf(image) {
        open_elf(alloc, image)
    } else {
        open_flat(alloc, image)
    }
}

/// The machine that a file starts. The file was opened before, so it is a program, and can be refused only for lack of
/// memory.
pub fn open_again(alloc: Global, image: &[u8]) -> Result<Machine, AllocError>
    requires { IsProgramFile image.now }
    ensures machine { IfOk result (λ machine. machine ≡ hart_at_start image.now) }
    ensures count { IfOk result (λ machine. machine.retired ≡ 0) }
{
    match open(alloc, image) {
        Ok(machine) => Ok(machine),
        Err(OpenErr::NoMemory) => Err(AllocError),
        Err(OpenErr::Refused(_)) => unreachable!(),
    }
}
