//! The headers of a file and the entries of its symbol table.

ghost use Rattle.std.specs.Prelude.{◌≡◌, ◌+◌, ◌*◌, ◌<◌, ◌≤◌, ◌^◌, length, map};
ghost use Rattle.elf_view.specs.Fields.{FitsIn, entries};
ghost use Rattle.elf_view.specs.Headers.{file_header, program_header, section_header, symbol_entry, program_headers, section_headers, number_of_sections};

use crate::entries::{Entries, Entry};
use crate::fields::{half, word};

/// The fields of the file header that are read: numbers of two and of four bytes.
#[derive(Clone, Copy)]
pub struct FileHeader {
    pub kind: u16,
    pub machine: u16,
    pub entry: u32,
    pub program_offset: u32,
    pub section_offset: u32,
    pub flags: u32,
    pub program_size: u16,
    pub program_count: u16,
    pub section_size: u16,
    pub section_count: u16,
}

impl FileHeader {
    pub(crate) fn read(file: &[u8]) -> FileHeader
        requires { 52 ≤ length file.now }
        ensures { result ≡ file_header file.now }
    {
        FileHeader {
            kind: half(file, 16),
            machine: half(file, 18),
            entry: word(file, 24),
            program_offset: word(file, 28),
            section_offset: word(file, 32),
            flags: word(file, 36),
            program_size: half(file, 42),
            program_count: half(file, 44),
            section_size: half(file, 46),
            section_count: half(file, 48),
        }
    }

    /// How many section headers there are: none if the file gives no offset for their table.
    pub(crate) fn number_of_sections(&self) -> u16
        ensures { result ≡ number_of_sections self.now }
    {
        if self.section_offset == 0 {
            0
        } else {
            self.section_count
        }
    }

    /// The program headers, in table order.
    pub(crate) fn programs<'a>(&self, file: &'a [u8]) -> Entries<'a, ProgramHeader>
        requires header { self.now ≡ file_header file.now }
        requires fits { FitsIn file.now self.now.program_offset 32 self.now.program_count }
        ensures headers { entries program_header 32 result.file.now result.at result.left
            ≡ program_headers file.now }
        ensures count { result.left ≡ self.now.program_count }
        ensures few { result.left < 2 ^ 16 }
    {
        let count = self.program_count;
        Entries::new(file, self.program_offset as usize, usize::from(count))
    }

    /// The section headers, in table order.
    pub(crate) fn sections<'a>(&self, file: &'a [u8]) -> Entries<'a, SectionHeader>
        requires header { self.now ≡ file_header file.now }
        requires fits { FitsIn file.now self.now.section_offset 40 (number_of_sections self.now) }
        ensures headers { entries section_header 40 result.file.now result.at result.left
            ≡ section_headers file.now }
        ensures count { result.left ≡ number_of_sections self.now }
        ensures few { result.left < 2 ^ 16 }
    {
        Entries::new(
            file,
            self.section_offset as usize,
            usize::from(self.number_of_sections()),
        )
    }
}

/// The fields of a program header that are read.
#[derive(Clone, Copy)]
pub struct ProgramHeader {
    pub kind: u32,
    pub offset: u32,
    pub vaddr: u32,
    pub filesz: u32,
    pub memsz: u32,
    pub flags: u32,
}

impl Entry for ProgramHeader {
    ghost SIZE = { 32 };

    ghost entry_at = { program_header };

    const SIZE: usize = 32;

    fn read(file: &[u8], at: usize) -> ProgramHeader {
        ProgramHeader {
            kind: word(file, at),
            offset: word(file, at + 4),
            vaddr: word(file, at + 8),
            filesz: word(file, at + 16),
            memsz: word(file, at + 20),
            flags: word(file, at + 24),
        }
    }
}

/// The fields of a section header that are read.
#[derive(Clone, Copy)]
pub struct SectionHeader {
    pub kind: u32,
    pub offset: u32,
    pub size: u32,
    pub link: u32,
    pub entry_size: u32,
}

impl Entry for SectionHeader {
    ghost SIZE = { 40 };

    ghost entry_at = { section_header };

    const SIZE: usize = 40;

    fn read(file: &[u8], at: usize) -> SectionHeader {
        SectionHeader {
            kind: word(file, at + 4),
            offset: word(file, at + 16),
            size: word(file, at + 20),
            link: word(file, at + 24),
            entry_size: word(file, at + 36),
        }
    }
}

/// The fields of an entry of a symbol table that are read. The name is an index into the names.
#[derive(Clone, Copy)]
pub struct SymbolEntry {
    pub name: u32,
    pub value: u32,
    pub size: u32,
}

impl Entry for SymbolEntry {
    ghost SIZE = { 16 };

    ghost entry_at = { symbol_entry };

    const SIZE: usize = 16;

    fn read(file: &[u8], at: usize) -> SymbolEntry {
        SymbolEntry {
            name: word(file, at),
            value: word(file, at + 4),
            size: word(file, at + 8),
        }
    }
}
