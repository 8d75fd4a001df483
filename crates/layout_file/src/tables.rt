//! The keys and the types of one table.

ghost use Rattle.std.specs.Prelude.{◌≡◌, ◌∷◌, [], IfOk, IfErr, Some, None, codes, option_map, find, is_none, map, not, string_bytes};
ghost use Rattle.std.specs.Option.{option_copied};
ghost use Rattle.std.specs.BTreeMap.{keys};
ghost use Rattle.std.specs.List.{list_all, list_any};
ghost use Rattle.layout_file.specs.Names.{same_text};
ghost use Rattle.layout_file.specs.Tables.{knows, needed_keys, fits, has_shape, is_list_of, all_have, first_unknown_key, first_missing_key, first_misfit_key, entries_fault};
ghost use Rattle.layout_file.specs.Answers.{ReportsFault};
ghost use Rattle.toml.specs.Data.{get_member};
ghost use Rattle.toml.specs.View.{view, table_view, items_view};

use crate::classes::class_by_name;
use crate::format::Format;
use crate::kinds::{Shape, TableKind};
use crate::{FileErr, Name};
use std::alloc::Global;
use toml::{Table, Value};

/// The keys that the document may have in both formats.
const TOP_KEYS: [&str; 5] = ["format", "stages", "lane", "units", "siding"];

/// The keys that a siding may have.
const SIDING_KEYS: [&str; 4] = ["classes", "launch", "recover", "cells"];

/// Whether the key is one of these.
fn is_among(key: &str, keys: &[&str]) -> bool
    ensures { result ≡ list_any (λ known. same_text known.now key.now) keys.now }
{
    keys.iter().copied().any(|known| known == key)
}

/// Whether the table may have the key.
#[tactic(auto, unfolding(crate::specs::Tables::knows))]
fn is_known(kind: TableKind, key: &str) -> bool
    ensures { result ≡ knows kind key.now }
{
    match kind {
        TableKind::Top(Format::First) => is_among(key, &TOP_KEYS),
        TableKind::Top(Format::Second) => is_among(key, &TOP_KEYS) || key == "cache",
        TableKind::Units(format) => class_by_name(format, key).is_some(),
        TableKind::Siding => is_among(key, &SIDING_KEYS),
    }
}

/// Whether the value is of the type.
fn has_shape(shape: Shape, value: &Value) -> bool
    ensures { result ≡ has_shape shape (view value.now) }
{
    match shape {
        Shape::Integer => value.is_integer(),
        Shape::Text => value.is_str(),
        Shape::Truth => value.is_bool(),
        Shape::Table => value.is_table(),
    }
}

fn each_has_shape(shape: Shape, array: &[Value]) -> bool
    ensures { result ≡ list_all (λ v. has_shape shape (view v)) array.now }
{
    array.iter().all(|value| has_shape(shape, value))
}

/// Whether each element is of the type.
#[tactic(auto, using(crate::proofs::Views::all_have_view))]
fn all_have(shape: Shape, array: &[Value]) -> bool
    ensures { result ≡ all_have shape (items_view array.now) }
{
    each_has_shape(shape, array)
}

/// Whether the value is an array of at most 1,000 elements of the type.
#[tactic(auto, using(crate::proofs::Views::item_count_view))]
fn is_list_of(shape: Shape, value: &Value) -> bool
    ensures { result ≡ is_list_of shape (view value.now) }
{
    match value.as_array() {
        Some(array) => array.len() <= 1000 && all_have(shape, array),
        None => false,
    }
}

/// Whether the value at the key is of its type.
#[tactic(auto, unfolding(crate::specs::Tables::fits))]
fn is_fit(kind: TableKind, key: &str, value: &Value) -> bool
    ensures { result ≡ fits kind key.now (view value.now) }
{
    match kind {
        TableKind::Top(_) => {
            if key == "units" {
                has_shape(Shape::Table, value)
            } else if key == "siding" {
                is_list_of(Shape::Table, value)
            } else if key == "cache" {
                has_shape(Shape::Truth, value)
            } else {
                has_shape(Shape::Integer, value)
            }
        }
        TableKind::Units(_) => is_list_of(Shape::Integer, value),
        TableKind::Siding => {
            if key == "classes" {
                is_list_of(Shape::Text, value)
            } else {
                has_shape(Shape::Integer, value)
            }
        }
    }
}

/// The value at a key.
pub(crate) fn value_at<'a>(table: &'a Table, key: &str) -> Option<&'a Value>
    ensures { option_map (λ v. view v.now) result ≡ get_member key.now (table_view table.now) }
{
    table.get(key)
}

fn unknown_name(kind: TableKind, table: &Table) -> Option<&String>
    ensures { option_copied result ≡ find (λ k. not (knows kind (string_bytes k))) (keys table.now) }
{
    table.keys().find(|key| !is_known(kind, key.as_str()))
}

/// The first key in byte order that is not allowed in the table.
fn unknown_key(kind: TableKind, table: &Table) -> Option<&String>
    ensures { option_map (λ k. string_bytes k.now) result ≡ first_unknown_key kind (table_view table.now) }
{
    unknown_name(kind, table)
}

/// The keys that the table must have, in byte order.
fn needed_keys(kind: TableKind) -> &'static [&'static str]
    ensures { map (λ k. k.now) result.now ≡ needed_keys kind }
{
    match kind {
        TableKind::Top(Format::First) => &["format", "lane", "stages", "units"],
        TableKind::Top(Format::Second) => &["cache", "format", "lane", "stages", "units"],
        TableKind::Units(_) => &[],
        TableKind::Siding => &["cells", "classes", "launch", "recover"],
    }
}

/// The first of these keys that is missing in the table.
fn first_missing(table: &Table, keys: &[&'static str]) -> Option<&'static str>
    ensures { result ≡ find (λ k. is_none (get_member k.now (table_view table.now))) keys.now }
{
    keys.iter()
        .copied()
        .find(|key| value_at(table, key).is_none())
}

/// The first key in byte order that is missing in the table.
fn missing_key(kind: TableKind, table: &Table) -> Option<&'static str>
    ensures { option_map (λ k. k.now) result ≡ first_missing_key (needed_keys kind) (table_view table.now) }
{
    first_missing(table, needed_keys(kind))
}

/// The first key in byte order whose value is of the wrong type.
fn misfit_key(kind: TableKind, table: &Table) -> Option<&String>
    ensures { option_map (λ k. string_bytes k.now) result ≡ first_misfit_key kind (table_view table.now) }
{
    for (key, value) in table {
        if !is_fit(kind, key.as_str(), value) {
            return Some(key);
        }
    }
    None
}

/// Tests the keys and the types of one table.
#[tactic(auto, unfolding(crate::specs::Tables::entries_fault))]
pub(crate) fn check_entries(alloc: Global, kind: TableKind, table: &Table) -> Result<(), FileErr>
    ensures ok { IfOk result (λ done. entries_fault kind (table_view table.now) ≡ None) }
    ensures refused { IfErr result (λ error. ReportsFault error (entries_fault kind (table_view table.now))) }
{
    if let Some(key) = unknown_key(kind, table) {
        let name = Name::new(key.clone()?);
        return match kind {
            TableKind::Units(_) => Err(FileErr::UnknownClass(name)),
            TableKind::Top(_) | TableKind::Siding => Err(FileErr::UnknownKey(name)),
        };
    }
    if let Some(key) = missing_key(kind, table) {
        return Err(FileErr::MissingKey(Name::new(String::from_str(alloc, key)?)));
    }
    if let Some(key) = misfit_key(kind, table) {
        return Err(FileErr::WrongType(Name::new(key.clone()?)));
    }
    Ok(())
}
