//! The symbols of a file and their names.

ghost use Rattle.std.specs.Prelude.{◌≡◌, ◌+◌, ◌^◌, ◌<◌, ◌≤◌, ◌++◌, ◌∷◌, [], length, map, IfOk, OnOk, true};
ghost use Rattle.rv_asm.specs.Labels.{label_view};
ghost use Rattle.elf_make.specs.Fields.{words};
ghost use Rattle.elf_make.specs.Symbols.{is_bound, bound, terminated, terminated_names, symbol_names, locals_first, entry, entries_from, symbol_table, are_addresses};

use crate::binding::SymbolBinding;
use crate::fields::{push_halves, push_words};
use rv_asm::Label;
use std::alloc::AllocError;

const LOCAL: u8 = 0;

const GLOBAL: u8 = 16;

const TEXT_SECTION: u16 = 1;

const DATA_SECTION: u16 = 2;

fn is_bound(binding: SymbolBinding, label: &Label) -> bool
    ensures { result ≡ is_bound binding (label_view label.now) }
{
    match binding {
        SymbolBinding::Local => !label.global,
        SymbolBinding::Global => label.global,
    }
}

/// Appends the name's index and the value of a symbol; its size is 0.
fn push_value(file: &mut Vec<u8>, name: u32, value: u32) -> Result<(), AllocError>
    ensures words { OnOk result (file.new.items ≡ file.old.items ++ words (name ∷ value ∷ 0 ∷ [])) }
    ensures address { value < 2 ^ 32 }
{
    push_words(file, &[name, value, 0])
}

/// Appends the entry of a label whose name begins at an index.
fn push_entry(file: &mut Vec<u8>, name: u32, label: &Label) -> Result<(), AllocError>
    ensures entry { OnOk result (file.new.items ≡ file.old.items ++ entry name (label_view label.now)) }
    ensures address { OnOk result ((label_view label.now).value < 2 ^ 32) }
{
    let binding = if label.global { GLOBAL } else { LOCAL };
    let section = if label.in_text {
        TEXT_SECTION
    } else {
        DATA_SECTION
    };
    push_value(file, name, label.value)?;
    file.extend_from_slice(&[binding, 0])?;
    push_halves(file, &[section])
}

/// Appends the entry of a label, provided that it has this binding. Its name begins at an index; returns the index of the
/// next name.
#[tactic(auto, using(crate::proofs::Entries::address))]
fn push_bound_entry(
    file: &mut Vec<u8>,
    name: u32,
    label: &Label,
    binding: SymbolBinding,
) -> Result<u32, AllocError>
    requires { name + length (terminated (label_view label.now).name) ≤ 4000000 }
    ensures entries { OnOk result (file.new.items ≡ file.old.items ++ entries_from name (bound binding (label_view label.now ∷ []))) }
    ensures after { IfOk result (λ end. end ≡ name + length (terminated_names (bound binding (label_view label.now ∷ [])))) }
    ensures address { OnOk result (are_addresses (bound binding (label_view label.now ∷ [])) ≡ true) }
{
    if !is_bound(binding, label) {
        return Ok(name);
    }
    push_entry(file, name, label)?;
    Ok(name + label.name.as_str().len() as u32 + 1)
}

/// Appends the entries of the labels of this binding; the name of the first begins at an index. Returns the index after
/// their names.
fn push_entries(
    file: &mut Vec<u8>,
    start: u32,
    labels: &[Label],
    binding: SymbolBinding,
) -> Result<u32, AllocError>
    requires { start + length (terminated_names (map label_view labels.now)) ≤ 4000000 }
    ensures entries { OnOk result (file.new.items ≡ file.old.items ++ entries_from start (bound binding (map label_view labels.now))) }
    ensures after { IfOk result (λ end. end ≡ start + length (terminated_names (bound binding (map label_view labels.now)))) }
    ensures addresses { OnOk result (are_addresses (bound binding (map label_view labels.now)) ≡ true) }
{
    let mut name = start;
    let mut rest = labels;
    while let [label, after @ ..] = rest {
        name = push_bound_entry(file, name, label, binding)?;
        rest = after;
    }
    Ok(name)
}

/// Appends the name of a label with a NUL, provided that the label has this binding.
fn push_bound_name(
    file: &mut Vec<u8>,
    label: &Label,
    binding: SymbolBinding,
) -> Result<(), AllocError>
    ensures { OnOk result (file.new.items ≡ file.old.items ++ terminated_names (bound binding (label_view label.now ∷ []))) }
{
    if !is_bound(binding, label) {
        return Ok(());
    }
    file.extend_from_slice(label.name.as_str().as_bytes())?;
    file.push(0)?;
    Ok(())
}

/// Appends the names of the labels of this binding, each with a NUL.
fn push_bound_names(
    file: &mut Vec<u8>,
    labels: &[Label],
    binding: SymbolBinding,
) -> Result<(), AllocError>
    ensures { OnOk result (file.new.items ≡ file.old.items ++ terminated_names (bound binding (map label_view labels.now))) }
{
    let mut rest = labels;
    while let [label, after @ ..] = rest {
        push_bound_name(file, label, binding)?;
        rest = after;
    }
    Ok(())
}

/// Appends the symbol table: the null symbol, then the labels, the local ones first.
#[tactic(auto, unfolding(crate::specs::Symbols::symbol_table, crate::specs::Symbols::locals_first), using(crate::proofs::Entries::entries))]
pub fn push_symbols(file: &mut Vec<u8>, labels: &[Label]) -> Result<(), AllocError>
    requires { length (terminated_names (map label_view labels.now)) ≤ 1572864 }
    ensures table { OnOk result (file.new.items ≡ file.old.items ++ symbol_table (map label_view labels.now)) }
    ensures addresses { OnOk result (are_addresses (locals_first (map label_view labels.now)) ≡ true) }
{
    file.extend_from_slice(&[0; 16])?;
    let start = push_entries(file, 1, labels, SymbolBinding::Local)?;
    push_entries(file, start, labels, SymbolBinding::Global)?;
    Ok(())
}

/// Appends the names of the symbols.
#[tactic(auto, unfolding(crate::specs::Symbols::symbol_names, crate::specs::Symbols::locals_first), using(crate::proofs::Entries::names))]
pub fn push_names(file: &mut Vec<u8>, labels: &[Label]) -> Result<(), AllocError>
    ensures { OnOk result (file.new.items ≡ file.old.items ++ symbol_names (map label_view labels.now)) }
{
    file.push(0)?;
    push_bound_names(file, labels, SymbolBinding::Local)?;
    push_bound_names(file, labels, SymbolBinding::Global)
}
