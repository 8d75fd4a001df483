//! The sections of a file, and those from which its symbols are read.

ghost use Rattle.std.specs.Prelude.{◌≡◌, ◌<◌, ◌≤◌, ◌^◌, ◌+◌, ◌*◌, ◌/◌, IfSome, IsTrue, length, position};
ghost use Rattle.elf_view.specs.Fields.{entries as table_entries, FitsIn};
ghost use Rattle.elf_view.specs.Headers.{file_header, symbol_entry, number_of_sections};
ghost use Rattle.elf_view.specs.Sections.{is_symbol_table, first_symbol_table, section_at, is_within_file, section_bytes, entries_of, has_whole_entries, ends_in_nul, names_begin_in, has_sound_names, is_sound_table};

use crate::entries::{Entries, Entry};
use crate::headers::{FileHeader, SectionHeader, SymbolEntry};

const SYMBOL_TABLE: u32 = 2;

impl SectionHeader {
    /// Whether the section is a symbol table.
    fn is_symbol_table(&self) -> bool
        ensures { result ≡ is_symbol_table self.now }
    {
        self.kind == SYMBOL_TABLE
    }

    /// Whether the bytes of the section are in the file.
    fn lies_in(&self, file: &[u8]) -> bool
        ensures { result ≡ is_within_file file.now self.now }
    {
        self.offset as usize + self.size as usize <= file.len()
    }

    /// The bytes of the section.
    pub(crate) fn content<'a>(&self, file: &'a [u8]) -> &'a [u8]
        requires { IsTrue (is_within_file file.now self.now) }
        ensures value { result.now ≡ section_bytes file.now self.now }
        ensures length { length result.now ≡ self.now.size }
    {
        let start = self.offset as usize;
        &file[start..start + self.size as usize]
    }

    /// Whether the section has entries of symbols, all of them whole.
    fn has_whole_entries(&self) -> bool
        ensures { result ≡ has_whole_entries self.now }
    {
        self.entry_size as usize == SymbolEntry::SIZE && self.size as usize % SymbolEntry::SIZE == 0
    }

    /// The entries of the symbol table.
    pub(crate) fn entries<'a>(&self, file: &'a [u8]) -> Entries<'a, SymbolEntry>
        requires { IsTrue (is_within_file file.now self.now) }
        ensures { table_entries symbol_entry 16 result.file.now result.at result.left
            ≡ entries_of file.now self.now }
    {
        Entries::new(
            file,
            self.offset as usize,
            self.size as usize / SymbolEntry::SIZE,
        )
    }
}

/// Whether the last of the bytes is NUL.
fn ends_in_nul(bytes: &[u8]) -> bool
    ensures { result ≡ ends_in_nul bytes.now }
{
    !bytes.is_empty() && bytes[bytes.len() - 1] == 0
}

/// Whether the name of each entry begins in the names.
fn names_begin_in(names: &SectionHeader, mut entries: Entries<SymbolEntry>) -> bool
    ensures { result ≡ names_begin_in names.now
        (table_entries symbol_entry 16 entries.entry.file.now entries.entry.at entries.entry.left) }
{
    entries.all(|entry| entry.name < names.size)
}

/// Whether the names are in the file and end in NUL, and the name of each symbol begins in them.
fn has_sound_names(file: &[u8], table: &SectionHeader, names: &SectionHeader) -> bool
    requires { IsTrue (is_within_file file.now table.now) }
    ensures { result ≡ has_sound_names file.now table.now names.now }
{
    names.lies_in(file)
        && ends_in_nul(names.content(file))
        && names_begin_in(names, table.entries(file))
}

/// The section header at an index.
pub(crate) fn section_at(file: &[u8], header: &FileHeader, index: u32) -> SectionHeader
    requires header { header.now ≡ file_header file.now }
    requires fits { FitsIn file.now header.now.section_offset 40 (number_of_sections header.now) }
    requires within { index < number_of_sections header.now }
    ensures { result ≡ section_at file.now index }
{
    SectionHeader::read(
        file,
        header.section_offset as usize + SectionHeader::SIZE * index as usize,
    )
}

/// Whether the symbol table can be read.
pub(crate) fn is_sound_table(file: &[u8], header: &FileHeader, table: &SectionHeader) -> bool
    requires header { header.now ≡ file_header file.now }
    requires fits { FitsIn file.now header.now.section_offset 40 (number_of_sections header.now) }
    ensures { result ≡ is_sound_table file.now table.now }
{
    table.has_whole_entries()
        && table.lies_in(file)
        && table.link < u32::from(header.number_of_sections())
        && has_sound_names(file, table, &section_at(file, header, table.link))
}

/// The index of the first symbol table.
pub(crate) fn first_symbol_table(file: &[u8], header: &FileHeader) -> Option<usize>
    requires header { header.now ≡ file_header file.now }
    requires fits { FitsIn file.now header.now.section_offset 40 (number_of_sections header.now) }
    ensures index { result ≡ first_symbol_table file.now }
    ensures few { IfSome result (λ i. i < 2 ^ 16) }
    ensures within { IfSome result (λ i. i < number_of_sections header.now) }
{
    header
        .sections(file)
        .position(|section| section.is_symbol_table())
}
