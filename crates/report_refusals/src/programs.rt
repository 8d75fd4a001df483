//! The report of a file that is not a program.
#![tactic(auto, unfolding(crate::specs::Programs::elf_refusal, crate::specs::Programs::load_refusal, crate::specs::Programs::program_refusal, crate::specs::Programs::bad_program))]

ghost use Rattle.std.specs.Prelude.{◌≡◌, ◌+◌, ◌≤◌, ◌++◌, length};
ghost use Rattle.report_refusals.specs.Programs.{elf_refusal, load_refusal, program_refusal, bad_program as report_of};
ghost use Rattle.texts.specs.Room.{page_room};

use crate::faults::ProgramErr;
use crate::kept::KeptValue::Number;
use crate::kept::push_variant;
use elf_view::ElfErr;
use mem_regions::LoadErr;
use texts::Page;

fn push_elf(page: &mut Page, error: ElfErr)
    requires { length page.old + 50 ≤ page_room }
    ensures text { page.new ≡ page.old ++ elf_refusal error }
    ensures size { length page.new ≤ length page.old + 50 }
{
    match error {
        ElfErr::TooShort(at) => push_variant(page, b"TooShort", &[Number(at)]),
        ElfErr::NotElf => push_variant(page, b"NotElf", &[]),
        ElfErr::Not32Little => push_variant(page, b"Not32Little", &[]),
        ElfErr::NotRiscv(machine) => push_variant(page, b"NotRiscv", &[Number(machine.into())]),
        ElfErr::NotExecutable(kind) => push_variant(page, b"NotExecutable", &[Number(kind.into())]),
        ElfErr::NeedsCompressed => push_variant(page, b"NeedsCompressed", &[]),
        ElfErr::NeedsFloat => push_variant(page, b"NeedsFloat", &[]),
        ElfErr::NeedsRve => push_variant(page, b"NeedsRve", &[]),
        ElfErr::BadHeaderSize(size) => push_variant(page, b"BadHeaderSize", &[Number(size.into())]),
        ElfErr::OutsideFile(index) => push_variant(page, b"OutsideFile", &[Number(index.into())]),
        ElfErr::FileLargerThanMemory(index) => push_variant(
            page,
            b"FileLargerThanMemory",
            &[Number(index.into())],
        ),
        ElfErr::NeedsInterpreter => push_variant(page, b"NeedsInterpreter", &[]),
        ElfErr::BadSymbols(index) => push_variant(page, b"BadSymbols", &[Number(index.into())]),
    }
}

fn push_load(page: &mut Page, error: LoadErr)
    requires { length page.old + 60 ≤ page_room }
    ensures text { page.new ≡ page.old ++ load_refusal error }
    ensures size { length page.new ≤ length page.old + 60 }
{
    match error {
        LoadErr::Overlap(first, second) => push_variant(
            page,
            b"Overlap",
            &[Number(first.into()), Number(second.into())],
        ),
        LoadErr::TooMany(number) => push_variant(page, b"TooMany", &[Number(number.into())]),
        LoadErr::TooLarge(size) => push_variant(page, b"TooLarge", &[Number(size)]),
        LoadErr::WrapsAround(index) => push_variant(page, b"WrapsAround", &[Number(index.into())]),
        LoadErr::NoMemory => push_variant(page, b"NoMemory", &[]),
    }
}

fn push_program(page: &mut Page, error: ProgramErr)
    requires { length page.old + 80 ≤ page_room }
    ensures text { page.new ≡ page.old ++ program_refusal error }
    ensures size { length page.new ≤ length page.old + 80 }
{
    match error {
        ProgramErr::TooLong => page.push(b"TooLong"),
        ProgramErr::Elf(error) => {
            page.push(b"Elf ");
            push_elf(page, error);
        }
        ProgramErr::Load(error) => {
            page.push(b"Load ");
            push_load(page, error);
        }
    }
}

/// The report of a file that is not a program: one line with the name of the refusal and what it keeps, such as
/// `bad program: Load Overlap 0 1`.
pub fn bad_program(error: ProgramErr) -> Page
    ensures { result ≡ report_of error }
{
    let mut page = Page::new();
    page.push(b"bad program: ");
    push_program(&mut page, error);
    page.push(b"\n");
    page
}
