//! The headers of a file.
#![tactic(auto, using(std::proofs::lemmas::List::append_assoc))]

ghost use Rattle.std.specs.Prelude.{◌≡◌, ◌++◌, OnOk};
ghost use Rattle.elf_make.specs.Sizes.{AreSmall};
ghost use Rattle.elf_make.specs.Headers.{file_header_bytes, program_header_bytes, program_headers_bytes, section_header_bytes, text_section, data_section, symbols_section, names_section, section_names_section, content_headers, table_headers, section_headers_bytes};

use crate::fields::{push_halves, push_words};
use crate::section::{NO_SECTION, SectionFields};
use crate::sizes::{SECTION_NAMES_LEN, Sizes, TEXT_OFFSET};
use std::alloc::AllocError;

const TEXT_ADDRESS: u32 = 0x1_0000;

const DATA_ADDRESS: u32 = 0x20_0000;

const EXECUTABLE_FILE: u16 = 2;

const RISCV: u16 = 243;

const LOAD: u32 = 1;

const READ_EXECUTE: u32 = 5;

const READ_WRITE: u32 = 6;

const CONTENT: u32 = 1;

const SYMBOLS: u32 = 2;

const STRINGS: u32 = 3;

const ALLOCATED_CODE: u32 = 6;

const ALLOCATED_DATA: u32 = 3;

/// Appends the file header.
#[tactic(auto, using(std::proofs::lemmas::List::append_assoc), unfolding(crate::specs::Headers::identity))]
pub fn push_file_header(file: &mut Vec<u8>, sizes: Sizes, entry: u32) -> Result<(), AllocError>
    requires { AreSmall sizes }
    ensures { OnOk result (file.new.items ≡ file.old.items ++ file_header_bytes sizes entry) }
{
    file.extend_from_slice(b"\x7fELF\x01\x01\x01\0\0\0\0\0\0\0\0\0")?;
    push_halves(file, &[EXECUTABLE_FILE, RISCV])?;
    push_words(file, &[1, entry, 52, sizes.sections_offset(), 0])?;
    push_halves(file, &[52, 32, 2, 40, 6, 5])
}

/// Appends the header of a segment that is loaded.
fn push_program_header(
    file: &mut Vec<u8>,
    offset: u32,
    address: u32,
    len: u32,
    flags: u32,
) -> Result<(), AllocError>
    ensures { OnOk result (file.new.items ≡ file.old.items ++ program_header_bytes offset address len flags) }
{
    push_words(file, &[LOAD, offset, address, address, len, len, flags, 4])
}

/// Appends the program headers.
pub fn push_program_headers(file: &mut Vec<u8>, sizes: Sizes) -> Result<(), AllocError>
    requires { AreSmall sizes }
    ensures { OnOk result (file.new.items ≡ file.old.items ++ program_headers_bytes sizes) }
{
    push_program_header(
        file,
        TEXT_OFFSET,
        TEXT_ADDRESS,
        sizes.text_len,
        READ_EXECUTE,
    )?;
    push_program_header(
        file,
        sizes.data_offset(),
        DATA_ADDRESS,
        sizes.data_len,
        READ_WRITE,
    )
}

/// Appends the header of a section.
fn push_section_header(file: &mut Vec<u8>, section: SectionFields) -> Result<(), AllocError>
    ensures { OnOk result (file.new.items ≡ file.old.items ++ section_header_bytes section) }
{
    push_words(
        file,
        &[
            section.name,
            section.kind,
            section.flags,
            section.address,
            section.offset,
            section.len,
            section.link,
            section.info,
            section.alignment,
            section.entry_len,
        ],
    )
}

fn text_section(sizes: Sizes) -> SectionFields
    ensures { result ≡ text_section sizes }
{
    SectionFields {
        name: 1,
        kind: CONTENT,
        flags: ALLOCATED_CODE,
        address: TEXT_ADDRESS,
        offset: TEXT_OFFSET,
        len: sizes.text_len,
        alignment: 4,
        ..NO_SECTION
    }
}

fn data_section(sizes: Sizes) -> SectionFields
    requires { AreSmall sizes }
    ensures { result ≡ data_section sizes }
{
    SectionFields {
        name: 7,
        kind: CONTENT,
        flags: ALLOCATED_DATA,
        address: DATA_ADDRESS,
        offset: sizes.data_offset(),
        len: sizes.data_len,
        alignment: 4,
        ..NO_SECTION
    }
}

/// The section of the symbols, whose names are in the section with the index 4.
fn symbols_section(sizes: Sizes) -> SectionFields
    requires { AreSmall sizes }
    ensures { result ≡ symbols_section sizes }
{
    SectionFields {
        name: 13,
        kind: SYMBOLS,
        offset: sizes.symbols_offset(),
        len: sizes.symbols_len(),
        link: 4,
        info: 1 + sizes.locals,
        alignment: 4,
        entry_len: 16,
        ..NO_SECTION
    }
}

fn names_section(sizes: Sizes) -> SectionFields
    requires { AreSmall sizes }
    ensures { result ≡ names_section sizes }
{
    SectionFields {
        name: 21,
        kind: STRINGS,
        offset: sizes.names_offset(),
        len: sizes.names_len,
        alignment: 1,
        ..NO_SECTION
    }
}

/// The section of the names of the sections.
fn section_names_section(sizes: Sizes) -> SectionFields
    requires { AreSmall sizes }
    ensures { result ≡ section_names_section sizes }
{
    SectionFields {
        name: 29,
        kind: STRINGS,
        offset: sizes.section_names_offset(),
        len: SECTION_NAMES_LEN,
        alignment: 1,
        ..NO_SECTION
    }
}

/// Appends the null header and those of the text and of the data.
fn push_content_headers(file: &mut Vec<u8>, sizes: Sizes) -> Result<(), AllocError>
    requires { AreSmall sizes }
    ensures { OnOk result (file.new.items ≡ file.old.items ++ content_headers sizes) }
{
    push_section_header(file, NO_SECTION)?;
    push_section_header(file, text_section(sizes))?;
    push_section_header(file, data_section(sizes))
}

/// Appends the headers of the symbols, of their names and of the names of the sections.
fn push_table_headers(file: &mut Vec<u8>, sizes: Sizes) -> Result<(), AllocError>
    requires { AreSmall sizes }
    ensures { OnOk result (file.new.items ≡ file.old.items ++ table_headers sizes) }
{
    push_section_header(file, symbols_section(sizes))?;
    push_section_header(file, names_section(sizes))?;
    push_section_header(file, section_names_section(sizes))
}

/// Appends the headers of the sections.
pub fn push_section_headers(file: &mut Vec<u8>, sizes: Sizes) -> Result<(), AllocError>
    requires { AreSmall sizes }
    ensures { OnOk result (file.new.items ≡ file.old.items ++ section_headers_bytes sizes) }
{
    push_content_headers(file, sizes)?;
    push_table_headers(file, sizes)
}
