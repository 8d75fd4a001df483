//! Writing a file.

ghost use Rattle.std.specs.Prelude.{◌≡◌, ◌≤◌, ◌++◌, length, map, IfOk, OnOk, true};
ghost use Rattle.rv_asm.specs.Small.{IsSmallObject};
ghost use Rattle.rv_asm.specs.Labels.{label_view};
ghost use Rattle.elf_make.specs.Sizes.{AreSmall, zeros_after};
ghost use Rattle.elf_make.specs.Symbols.{terminated_names, locals_first, are_addresses};
ghost use Rattle.elf_make.specs.Viewed.{IsView};
ghost use Rattle.elf_make.specs.Files.{front, section_contents, tables, elf_file};

use crate::headers::{push_file_header, push_program_headers, push_section_headers};
use crate::sizes::{Sizes, padding};
use crate::symbols::{push_names, push_symbols};
use rv_asm::{Label, Object};
use std::alloc::{AllocError, Global};

/// Appends zeros after contents of this length, up to a multiple of 4.
fn push_zeros(file: &mut Vec<u8>, len: u32) -> Result<(), AllocError>
    ensures { OnOk result (file.new.items ≡ file.old.items ++ zeros_after len) }
{
    for _ in 0..padding(len) {
        file.push(0)?;
    }
    Ok(())
}

/// Appends bytes, and zeros after them.
fn push_content(file: &mut Vec<u8>, bytes: &[u8]) -> Result<(), AllocError>
    requires { length bytes.now ≤ 1048576 }
    ensures { OnOk result (file.new.items ≡ file.old.items ++ bytes.now ++ zeros_after (length bytes.now)) }
{
    file.extend_from_slice(bytes)?;
    push_zeros(file, bytes.len() as u32)
}

/// Appends the headers, which come first.
#[tactic(auto, using(std::proofs::lemmas::List::append_assoc), unfolding(crate::specs::Files::front))]
fn push_front(file: &mut Vec<u8>, sizes: Sizes, entry: u32) -> Result<(), AllocError>
    requires { AreSmall sizes }
    ensures { OnOk result (file.new.items ≡ file.old.items ++ front sizes entry) }
{
    push_file_header(file, sizes, entry)?;
    push_program_headers(file, sizes)
}

/// Appends text and data.
#[tactic(auto, using(std::proofs::lemmas::List::append_assoc), unfolding(crate::specs::Files::section_contents))]
fn push_contents(file: &mut Vec<u8>, text: &[u8], data: &[u8]) -> Result<(), AllocError>
    requires text { length text.now ≤ 1048576 }
    requires data_bytes { length «data».now ≤ 1048576 }
    ensures { OnOk result (file.new.items ≡ file.old.items ++ section_contents text.now «data».now) }
{
    push_content(file, text)?;
    push_content(file, data)
}

/// Appends the symbols and all names.
#[tactic(auto, using(std::proofs::lemmas::List::append_assoc), unfolding(crate::specs::Files::tables))]
fn push_tables(file: &mut Vec<u8>, labels: &[Label], sizes: Sizes) -> Result<(), AllocError>
    requires names { length (terminated_names (map label_view labels.now)) ≤ 1572864 }
    requires small { AreSmall sizes }
    ensures tables { OnOk result (file.new.items ≡ file.old.items ++ tables (map label_view labels.now) sizes) }
    ensures addresses { OnOk result (are_addresses (locals_first (map label_view labels.now)) ≡ true) }
{
    push_symbols(file, labels)?;
    push_names(file, labels)?;
    file.extend_from_slice(b"\0.text\0.data\0.symtab\0.strtab\0.shstrtab\0")?;
    push_zeros(file, sizes.section_names_end())
}

/// The file of an object: its text and its data as segments that are loaded, and its labels as symbols,
/// the local ones first.
#[tactic(auto, using(crate::proofs::Counts::sizes, crate::proofs::Views::views), unfolding(crate::specs::Files::elf_file))]
pub fn write_elf(alloc: Global, object: &Object) -> Result<Vec<u8>, AllocError>
    requires { IsSmallObject object.now }
    ensures file { IfOk result (λ file. file.items ≡ elf_file object.now) }
    ensures view { IfOk result (λ file. IsView object.now file.items) }
{
    let sizes = Sizes::of(object);
    let mut file = Vec::new(alloc);
    push_front(&mut file, sizes, object.entry)?;
    push_contents(
        &mut file,
        object.text_bytes.as_slice(),
        object.data_bytes.as_slice(),
    )?;
    push_tables(&mut file, object.labels.as_slice(), sizes)?;
    push_section_headers(&mut file, sizes)?;
    Ok(file)
}
