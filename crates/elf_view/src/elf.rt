//! A file that passed all tests.

ghost use Rattle.std.specs.Prelude.{◌≡◌, IfOk, IfErr, All};
ghost use Rattle.elf_view.specs.Causes.{IsElfCause};
ghost use Rattle.elf_view.specs.Executables.{IsElf};
ghost use Rattle.elf_view.specs.Fields.{FitsIn};
ghost use Rattle.elf_view.specs.Headers.{file_header, number_of_sections};
ghost use Rattle.elf_view.specs.Left.{lazy_left, segments_left, symbols_left};
ghost use Rattle.elf_view.specs.Refusal.{file_refusal};
ghost use Rattle.elf_view.specs.Sections.{IsReadable};
ghost use Rattle.elf_view.specs.Segments.{segments_of, IsLoadable};
ghost use Rattle.elf_view.specs.Symbols.{symbols_in, symbols_of};

use crate::entries::Entries;
use crate::headers::{FileHeader, SectionHeader};
use crate::refusal::check;
use crate::sections::{first_symbol_table, section_at};
use crate::{ElfErr, LazySymbols, Segments, Symbols};
use std::marker::Model;

/// An executable file, over borrowed bytes.
#[derive(Drop)]
pub struct Elf<'a> {
    file: &'a [u8],
    header: FileHeader,
}

impl<'a> Model for Elf<'a> {
    ghost use Rattle.std.specs.Prelude.{◌≡◌, ℕ, List, None};
    ghost use Rattle.elf_view.specs.Headers.{file_header};
    ghost use Rattle.elf_view.specs.Refusal.{file_refusal};

    ghost Value = { List ℕ };

    ghost view = { λ e. e.file.now };

    ghost invariant = { λ e. (file_refusal e.file.now ≡ None) × (e.header ≡ file_header e.file.now) };
}

/// The symbols of a symbol table.
fn symbols_in<'a>(file: &'a [u8], header: &FileHeader, table: &SectionHeader) -> LazySymbols<'a>
    requires header { header.now ≡ file_header file.now }
    requires fits { FitsIn file.now header.now.section_offset 40 (number_of_sections header.now) }
    requires readable { IsReadable file.now table.now }
    ensures { lazy_left result ≡ symbols_in file.now table.now }
{
    let names = section_at(file, header, table.link);
    LazySymbols::new(table.entries(file), names.content(file))
}

impl<'a> Elf<'a> {
    /// Views the file as an executable.
    #[tactic(auto, using(crate::proofs::Views::views))]
    pub fn view(file: &'a [u8]) -> Result<Elf<'a>, ElfErr>
        ensures file { IfOk result (λ elf. elf ≡ file.now) }
        ensures is_elf { IfOk result (λ elf. IsElf file.now) }
        ensures accepted { IfOk result (λ elf. file_refusal file.now ≡ None) }
        ensures loadable { IfOk result (λ elf. All (IsLoadable file.now) (segments_of file.now)) }
        ensures refused { IfErr result (λ error. file_refusal file.now ≡ Some error) }
        ensures not_elf { IfErr result (λ error. ¬ IsElf file.now) }
        ensures cause { IfErr result (λ error. IsElfCause file.now error) }
    {
        let header = check(file)?;
        Ok(Elf { file, header })
    }

    /// The entry point of the program.
    pub fn entry(&self) -> u32
        ensures { result ≡ (file_header self.now).entry }
    {
        self.header.entry
    }

    /// The loadable segments, in the order of the program headers.
    #[tactic(auto, using(crate::proofs::Accepted::programs_fit, crate::proofs::Accepted::segments_sound), unfolding(crate::specs::Segments::segments_of))]
    pub fn segments(&self) -> Segments<'a>
        ensures list { segments_left result ≡ segments_of self.now }
        ensures loadable { All (IsLoadable self.now) (segments_left result) }
    {
        Segments::new(self.file, self.header.programs(self.file))
    }

    /// The symbols, in the order of the first symbol table, with names that are looked up only when they are needed.
    #[tactic(auto, using(crate::proofs::Accepted::sections_fit, crate::proofs::Accepted::table_readable), unfolding(crate::specs::Symbols::symbols_of))]
    pub fn lazy_symbols(&self) -> LazySymbols<'a>
        ensures { lazy_left result ≡ symbols_of self.now }
    {
        match first_symbol_table(self.file, &self.header) {
            Some(index) => {
                let table = section_at(self.file, &self.header, index as u32);
                symbols_in(self.file, &self.header, &table)
            }
            None => LazySymbols::new(Entries::new(self.file, 0, 0), &[]),
        }
    }

    /// The symbols, in the order of the first symbol table.
    pub fn symbols(&self) -> Symbols<'a>
        ensures { symbols_left result ≡ symbols_of self.now }
    {
        Symbols::new(self.lazy_symbols())
    }
}
