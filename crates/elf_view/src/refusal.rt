//! The tests that a file must pass.

ghost use Rattle.std.specs.Prelude.{◌≡◌, ◌<◌, ◌≤◌, ◌^◌, ◌*◌, ◌+◌, [], ◌∷◌, OnOk, IfOk, IfErr, IfSome, IfNone, length, find, position};
ghost use Rattle.std.specs.List.{list_any};
ghost use Rattle.elf_view.specs.Fields.{entry_offsets, ends_beyond, FitsIn};
ghost use Rattle.elf_view.specs.Headers.{file_header, program_headers, section_headers, number_of_sections};
ghost use Rattle.elf_view.specs.Segments.{is_loaded, is_interpreter};
ghost use Rattle.elf_view.specs.Refusal.{no_file_header, not_elf, not_32_little, identity_refusal, not_executable, not_riscv, needs_compressed, needs_float, needs_rve, target_refusal, bad_program_size, bad_section_size, cut_program_header, cut_section_header, table_refusal, needs_interpreter, ends_outside, is_larger, outside_file, larger_than_memory, segment_refusal, bad_symbols, file_refusal, first_error, view_answer};

use crate::entries::Entry;
use crate::headers::{FileHeader, ProgramHeader, SectionHeader};
use crate::sections::{first_symbol_table, is_sound_table, section_at};

/// Why a file is refused.
#[derive(Clone, Copy, Debug, PartialEq, Eq)]
pub enum ElfErr {
    /// The file ends before the file header does (then 0), or before the end of the header at this offset: the first
    /// such program header, or if there is none the first such section header.
    TooShort(u64),
    /// It does not begin with the bytes 7F 45 4C 46.
    NotElf,
    /// It is not of 32 bits, not little-endian, or not of version 1.
    Not32Little,
    /// It is for this machine, not for RISC-V.
    NotRiscv(u16),
    /// It is of this type, which is not that of an executable.
    NotExecutable(u16),
    /// Its flags say that it has compressed instructions.
    NeedsCompressed,
    /// Its flags say that it passes numbers in floating-point registers.
    NeedsFloat,
    /// Its flags say that it is for the embedded instruction set of 16 registers.
    NeedsRve,
    /// Its program headers have this size instead of 32 bytes, or its section headers instead of 40.
    BadHeaderSize(u16),
    /// The bytes of the segment of this program header end beyond the file.
    OutsideFile(u32),
    /// The segment of this program header has more bytes in the file than in memory.
    FileLargerThanMemory(u32),
    /// A program header names an interpreter.
    NeedsInterpreter,
    /// The first symbol table, the section at this index, is not sound: its entries are not whole ones of 16 bytes, it
    /// or the section of its names is not in the file, that section does not exist, the names do not end in NUL, or a
    /// symbol's name begins beyond them.
    BadSymbols(u32),
}

const HEADER_SIZE: usize = 52;

const MAGIC: [u8; 4] = [0x7f, 0x45, 0x4c, 0x46];

const EXECUTABLE: u16 = 2;

const RISCV: u16 = 243;

const COMPRESSED: u32 = 1;

const FLOAT: u32 = 6;

const EMBEDDED: u32 = 8;

const INTERPRETER: u32 = 3;

#[tactic(auto, unfolding(crate::specs::Refusal::no_file_header, crate::specs::Refusal::not_elf, crate::specs::Refusal::not_32_little, crate::specs::Refusal::identity_refusal))]
fn check_identity(file: &[u8]) -> Result<(), ElfErr>
    ensures answer { result ≡ view_answer (identity_refusal file.now) }
    ensures whole { OnOk result (52 ≤ length file.now) }
{
    if file.len() < HEADER_SIZE {
        return Err(ElfErr::TooShort(0));
    }
    if !file.starts_with(&MAGIC) {
        return Err(ElfErr::NotElf);
    }
    if !(file[4] == 1 && file[5] == 1 && file[6] == 1) {
        return Err(ElfErr::Not32Little);
    }
    Ok(())
}

#[tactic(auto, unfolding(crate::specs::Refusal::not_executable, crate::specs::Refusal::not_riscv, crate::specs::Refusal::needs_compressed, crate::specs::Refusal::needs_float, crate::specs::Refusal::needs_rve, crate::specs::Refusal::target_refusal))]
fn check_target(header: &FileHeader) -> Result<(), ElfErr>
    ensures { result ≡ view_answer (target_refusal header.now) }
{
    if header.kind != EXECUTABLE {
        return Err(ElfErr::NotExecutable(header.kind));
    }
    if header.machine != RISCV {
        return Err(ElfErr::NotRiscv(header.machine));
    }
    if header.flags & COMPRESSED != 0 {
        return Err(ElfErr::NeedsCompressed);
    }
    if header.flags & FLOAT != 0 {
        return Err(ElfErr::NeedsFloat);
    }
    if header.flags & EMBEDDED != 0 {
        return Err(ElfErr::NeedsRve);
    }
    Ok(())
}

impl ProgramHeader {
    /// Whether the header names an interpreter.
    fn is_interpreter(&self) -> bool
        ensures { result ≡ is_interpreter self.now }
    {
        self.kind == INTERPRETER
    }

    /// Whether the segment is loaded, and its bytes end beyond the file.
    fn is_outside(&self, file: &[u8]) -> bool
        ensures { result ≡ ends_outside file.now self.now }
    {
        self.is_load() && file.len() < self.offset as usize + self.filesz as usize
    }

    /// Whether the segment is loaded, and has more bytes in the file than in memory.
    fn is_larger(&self) -> bool
        ensures { result ≡ is_larger self.now }
    {
        self.is_load() && self.memsz < self.filesz
    }
}

/// The offset of the first entry of the table that ends beyond the file.
#[tactic(auto, using(crate::proofs::Tables::none_cut))]
fn first_cut(file: &[u8], at: u32, size: usize, count: u16) -> Option<u64>
    requires { size ≤ 40 }
    ensures offset { result ≡ find (λ place. ends_beyond file.now place size) (entry_offsets at size count) }
    ensures fits { IfNone result (FitsIn file.now at size count) }
{
    let mut place = at as usize;
    for _ in 0..count {
        if file.len() < place + size {
            return Some(place as u64);
        }
        place += size;
    }
    None
}

#[tactic(auto, unfolding(crate::specs::Refusal::bad_program_size, crate::specs::Refusal::bad_section_size))]
fn check_sizes(header: &FileHeader) -> Result<(), ElfErr>
    ensures { result
        ≡ view_answer (first_error (bad_program_size header.now ∷ bad_section_size header.now ∷ [])) }
{
    if header.program_count != 0 && usize::from(header.program_size) != ProgramHeader::SIZE {
        return Err(ElfErr::BadHeaderSize(header.program_size));
    }
    if header.number_of_sections() != 0 && usize::from(header.section_size) != SectionHeader::SIZE {
        return Err(ElfErr::BadHeaderSize(header.section_size));
    }
    Ok(())
}

#[tactic(auto, unfolding(crate::specs::Refusal::cut_program_header, crate::specs::Refusal::cut_section_header, crate::specs::Refusal::table_refusal))]
fn check_tables(file: &[u8], header: &FileHeader) -> Result<(), ElfErr>
    requires { header.now ≡ file_header file.now }
    ensures answer { result ≡ view_answer (table_refusal file.now) }
    ensures programs { OnOk result
        (FitsIn file.now header.now.program_offset 32 header.now.program_count) }
    ensures sections { OnOk result
        (FitsIn file.now header.now.section_offset 40 (number_of_sections header.now)) }
{
    check_sizes(header)?;
    let programs = first_cut(
        file,
        header.program_offset,
        ProgramHeader::SIZE,
        header.program_count,
    );
    if let Some(at) = programs {
        return Err(ElfErr::TooShort(at));
    }
    let sections = first_cut(
        file,
        header.section_offset,
        SectionHeader::SIZE,
        header.number_of_sections(),
    );
    if let Some(at) = sections {
        return Err(ElfErr::TooShort(at));
    }
    Ok(())
}

/// Whether a program header names an interpreter.
fn has_interpreter(file: &[u8], header: &FileHeader) -> bool
    requires header { header.now ≡ file_header file.now }
    requires fits { FitsIn file.now header.now.program_offset 32 header.now.program_count }
    ensures { result ≡ list_any is_interpreter (program_headers file.now) }
{
    header
        .programs(file)
        .any(|program| program.is_interpreter())
}

#[tactic(auto, unfolding(crate::specs::Refusal::needs_interpreter))]
fn check_interpreter(file: &[u8], header: &FileHeader) -> Result<(), ElfErr>
    requires header { header.now ≡ file_header file.now }
    requires fits { FitsIn file.now header.now.program_offset 32 header.now.program_count }
    ensures { result ≡ view_answer (needs_interpreter file.now) }
{
    if has_interpreter(file, header) {
        return Err(ElfErr::NeedsInterpreter);
    }
    Ok(())
}

/// The index of the first segment that ends beyond the file.
fn first_outside(file: &[u8], header: &FileHeader) -> Option<usize>
    requires header { header.now ≡ file_header file.now }
    requires fits { FitsIn file.now header.now.program_offset 32 header.now.program_count }
    ensures index { result ≡ position (ends_outside file.now) (program_headers file.now) }
    ensures within { IfSome result (λ i. i < 2 ^ 16) }
{
    header
        .programs(file)
        .position(|program| program.is_outside(file))
}

/// The index of the first segment that is larger in the file than in memory.
fn first_larger(file: &[u8], header: &FileHeader) -> Option<usize>
    requires header { header.now ≡ file_header file.now }
    requires fits { FitsIn file.now header.now.program_offset 32 header.now.program_count }
    ensures index { result ≡ position is_larger (program_headers file.now) }
    ensures within { IfSome result (λ i. i < 2 ^ 16) }
{
    header
        .programs(file)
        .position(|program| program.is_larger())
}

#[tactic(auto, unfolding(crate::specs::Refusal::outside_file))]
fn check_outside(file: &[u8], header: &FileHeader) -> Result<(), ElfErr>
    requires header { header.now ≡ file_header file.now }
    requires fits { FitsIn file.now header.now.program_offset 32 header.now.program_count }
    ensures { result ≡ view_answer (outside_file file.now) }
{
    match first_outside(file, header) {
        Some(index) => Err(ElfErr::OutsideFile(index as u32)),
        None => Ok(()),
    }
}

#[tactic(auto, unfolding(crate::specs::Refusal::larger_than_memory))]
fn check_larger(file: &[u8], header: &FileHeader) -> Result<(), ElfErr>
    requires header { header.now ≡ file_header file.now }
    requires fits { FitsIn file.now header.now.program_offset 32 header.now.program_count }
    ensures { result ≡ view_answer (larger_than_memory file.now) }
{
    match first_larger(file, header) {
        Some(index) => Err(ElfErr::FileLargerThanMemory(index as u32)),
        None => Ok(()),
    }
}

#[tactic(auto, unfolding(crate::specs::Refusal::segment_refusal))]
fn check_segments(file: &[u8], header: &FileHeader) -> Result<(), ElfErr>
    requires header { header.now ≡ file_header file.now }
    requires fits { FitsIn file.now header.now.program_offset 32 header.now.program_count }
    ensures { result ≡ view_answer (segment_refusal file.now) }
{
    check_interpreter(file, header)?;
    check_outside(file, header)?;
    check_larger(file, header)
}

#[tactic(auto, unfolding(crate::specs::Refusal::bad_symbols))]
fn check_symbols(file: &[u8], header: &FileHeader) -> Result<(), ElfErr>
    requires header { header.now ≡ file_header file.now }
    requires fits { FitsIn file.now header.now.section_offset 40 (number_of_sections header.now) }
    ensures { result ≡ view_answer (bad_symbols file.now) }
{
    let Some(index) = first_symbol_table(file, header) else {
        return Ok(());
    };
    let table = section_at(file, header, index as u32);
    if !is_sound_table(file, header, &table) {
        return Err(ElfErr::BadSymbols(index as u32));
    }
    Ok(())
}

/// Tests the file, in the order of the definition, and returns its header.
#[tactic(auto, unfolding(crate::specs::Refusal::file_refusal))]
pub(crate) fn check(file: &[u8]) -> Result<FileHeader, ElfErr>
    ensures accepted { IfOk result (λ header. file_refusal file.now ≡ None) }
    ensures header { IfOk result (λ header. header ≡ file_header file.now) }
    ensures refused { IfErr result (λ error. file_refusal file.now ≡ Some error) }
{
    check_identity(file)?;
    let header = FileHeader::read(file);
    check_target(&header)?;
    check_tables(file, &header)?;
    check_segments(file, &header)?;
    check_symbols(file, &header)?;
    Ok(header)
}
