//! The command `list`.

ghost use Rattle.std.specs.Prelude.{OnOk, IfErr};
ghost use Rattle.cf_io.specs.Causes.{HasCause};
ghost use Rattle.cf_io.specs.Puts.{Writes};
ghost use Rattle.cli_list.specs.Causes.{output_listed};
ghost use Rattle.cli_reports.specs.FileCommands.{AnswersByFile, AnswersByOutput};
ghost use Rattle.cli_list.specs.Listings.{listing_of, IsListable, IsNotListed, ListsImage, AnswersList};

use asm_listing::{ListingErr, put_elf_listing, put_flat_listing};
use cf_io::{Files, FilesErr, Sink};
use cli_files::{
    Answer, MOST_BYTES, ProgramErr, Which, done, is_elf, no_memory, no_program, unread, write_fault,
};
use elf_view::Elf;
use std::alloc::Global;

/// Why a listing was not put.
pub enum ListErr {
    /// The file is not a program.
    Refused(ProgramErr),

    /// There was no memory for it. Nothing was written.
    NoMemory,

    /// The output failed.
    Failed,
}

/// Writes the listing of a program file.
#[tactic(auto, unfolding(crate::specs::Listings::listing_of))]
fn put_listing<K: Sink>(alloc: Global, image: &[u8], output: &mut K) -> Result<(), ListErr>
    ensures listable { OnOk result (IsListable image.now) }
    ensures ok { OnOk result (Writes (K.written output.old) (K.written output.new) (listing_of image.now)) }
    ensures err { IfErr result (λ e. IsNotListed image.now (K.written output.old) (K.written output.new) e) }
    ensures cause { HasCause (K.faults output.old) (K.faults output.new) (output_listed result) }
{
    if image.len() as u64 > MOST_BYTES {
        return Err(ListErr::Refused(ProgramErr::TooLong));
    }
    if !is_elf(image) {
        return match put_flat_listing(image, output) {
            Ok(()) => Ok(()),
            Err(_) => Err(ListErr::Failed),
        };
    }
    let elf = match Elf::view(image) {
        Ok(elf) => elf,
        Err(error) => return Err(ListErr::Refused(ProgramErr::Elf(error))),
    };
    match put_elf_listing(alloc, &elf, output) {
        Ok(()) => Ok(()),
        Err(ListingErr::NoMemory) => Err(ListErr::NoMemory),
        Err(ListingErr::Failed) => Err(ListErr::Failed),
    }
}

/// Lists a program that was read.
fn list_image<K: Sink>(alloc: Global, image: &[u8], output: &mut K) -> Answer
    ensures { AnswersByOutput (ListsImage image.now) K.Sink output.old output.new result }
{
    match put_listing(alloc, image, output) {
        Ok(()) => done(),
        Err(ListErr::Refused(error)) => no_program(error),
        Err(ListErr::NoMemory) => no_memory(),
        Err(ListErr::Failed) => write_fault(),
    }
}

/// Carries out `list`: reads the program's file and writes its listing to the output.
pub fn list_program<F: Files, K: Sink>(
    alloc: Global,
    program: &str,
    files: &mut F,
    output: &mut K,
) -> Answer
    ensures { AnswersByFile (AnswersList program.now) F.Files K.Sink (files.old, output.old) (files.new, output.new) result }
{
    match files.read(alloc, program, MOST_BYTES + 1) {
        Ok(image) => list_image(alloc, image.as_slice(), output),
        Err(FilesErr::Failed) => unread(Which::Program),
        Err(FilesErr::NoMemory) => no_memory(),
    }
}
