//! Reading a layout file.

ghost use Rattle.std.specs.Prelude.{◌≡◌, ◌++◌, ◌≤◌, ◌⊎◌, length, All, IfOk, IfErr, Some, None, codes, option_map, unwrap_or};
ghost use Rattle.std.specs.Option.{option_or};
ghost use Rattle.layout_file.specs.Names.{class_name, class_by_name};
ghost use Rattle.layout_file.specs.Tables.{entries_fault};
ghost use Rattle.layout_file.specs.Reading.{integer_in, text_in, integer_at, truth_at, items_in, items_at, members_at, integers_of, classes_of, first_nameless, unit_in, units_among, siding_fault, siding_in, sidings_fault, sidings_in, cache_in, format_of, format_in, format_fault, tables_fault, parts_in, requested_parts, fault_of, loose_fault_of};
ghost use Rattle.layout_file.specs.Answers.{ReportsFault, IsDocument, LacksDocument, LayoutFails, LooseLayoutFails, Describes, DescribesLoosely};
ghost use Rattle.layout_file.specs.Limits.{most_layout_bytes};
ghost use Rattle.layout_file.specs.declared.kinds.TableKind.TheVariants.{Units as TheUnits};
ghost use Rattle.layout_file.specs.declared.fault.FileErr.TheVariants.{UnknownClass as NoClass, NoMemory as OutOfMemory};
ghost use Rattle.cf_layout.specs.Layout.{computed_classes};
ghost use Rattle.cf_layout.specs.Asked.{plan_of};
ghost use Rattle.cf_layout.specs.Acceptable.{IsComputed, AreComputed};
ghost use Rattle.cf_layout.specs.Refusal.{loose_refusal, first_refusal};
ghost use Rattle.toml.specs.Data.{get_member, no_members};
ghost use Rattle.toml.specs.View.{view, table_view, items_view};

use crate::classes::{class_by_name, class_name};
use crate::format::Format;
use crate::kinds::TableKind;
use crate::tables::{check_entries, value_at};
use crate::{FileErr, Name};
use cf_layout::{CLASSES, Layout, Listed, LooseLayout, Parts, Siding, check, check_loosely};
use rv_inst::Class;
use std::alloc::{AllocError, Global};
use toml::{Table, Value};

/// The value as an integer, or 0.
fn integer_in(value: &Value) -> i64
    ensures { result ≡ integer_in (view value.now) }
{
    value.as_integer().unwrap_or(0)
}

/// The integer at a key.
fn integer_at(table: &Table, key: &str) -> i64
    ensures { result ≡ integer_at key.now (table_view table.now) }
{
    match value_at(table, key) {
        Some(value) => integer_in(value),
        None => 0,
    }
}

/// The boolean at a key.
fn truth_at(table: &Table, key: &str) -> bool
    ensures { result ≡ truth_at key.now (table_view table.now) }
{
    match value_at(table, key) {
        Some(value) => value.as_bool().unwrap_or(false),
        None => false,
    }
}

/// The elements of a value that is an array.
fn elements_of(value: &Value) -> &[Value]
    ensures { items_view result.now ≡ items_in (view value.now) }
{
    match value.as_array() {
        Some(array) => array.as_slice(),
        None => &[],
    }
}

/// The elements of the array at a key.
fn elements<'a>(table: &'a Table, key: &str) -> &'a [Value]
    ensures { items_view result.now ≡ items_at key.now (table_view table.now) }
{
    match value_at(table, key) {
        Some(value) => elements_of(value),
        None => &[],
    }
}

/// The table at a key.
fn table_at<'a>(table: &'a Table, key: &str) -> Option<&'a Table>
    ensures { unwrap_or (option_map (λ t. table_view t.now) result) no_members ≡ members_at key.now (table_view table.now) }
{
    match value_at(table, key) {
        Some(value) => value.as_table(),
        None => None,
    }
}

/// The integers of an array.
fn integers(alloc: Global, array: &[Value]) -> Result<Vec<i64>, AllocError>
    ensures { IfOk result (λ list. list.items ≡ integers_of (items_view array.now)) }
{
    let mut list = Vec::new(alloc);
    for value in array {
        list.push(integer_in(value))?;
    }
    Ok(list)
}

/// The value as a string, or an empty one.
fn text_in(value: &Value) -> &str
    ensures { result.now ≡ text_in (view value.now) }
{
    value.as_str().unwrap_or("")
}

/// The class of a name.
fn class_named(alloc: Global, format: Format, word: &str) -> Result<Class, FileErr>
    ensures class { IfOk result (λ class. class_by_name format word.now ≡ Some class) }
    ensures refused { IfErr result (λ error. (error ≡ OutOfMemory) ⊎ ((class_by_name format word.now ≡ None) × (error ≡ NoClass word.now))) }
{
    match class_by_name(format, word) {
        Some(class) => Ok(class),
        None => Err(FileErr::UnknownClass(Name::new(String::from_str(alloc, word)?))),
    }
}

/// The classes that an array names.
fn class_list(alloc: Global, format: Format, array: &[Value]) -> Result<Vec<Class>, FileErr>
    ensures named { IfOk result (λ list. first_nameless format (items_view array.now) ≡ None) }
    ensures classes { IfOk result (λ list. list.items ≡ classes_of format (items_view array.now)) }
    ensures refused { IfErr result (λ error. ReportsFault error (option_map NoClass (first_nameless format (items_view array.now)))) }
{
    let mut list = Vec::new(alloc);
    for value in array {
        list.push(class_named(alloc, format, text_in(value))?)?;
    }
    Ok(list)
}

/// The siding of a table.
#[tactic(auto, unfolding(crate::specs::Reading::siding_fault, crate::specs::Reading::siding_in))]
fn siding(alloc: Global, format: Format, table: &Table) -> Result<Siding, FileErr>
    ensures right { IfOk result (λ siding. siding_fault format (table_view table.now) ≡ None) }
    ensures siding { IfOk result (λ siding. siding ≡ siding_in format (table_view table.now)) }
    ensures refused { IfErr result (λ error. ReportsFault error (siding_fault format (table_view table.now))) }
{
    check_entries(alloc, TableKind::Siding, table)?;
    let classes = class_list(alloc, format, elements(table, "classes"))?;
    Ok(Siding {
        classes: Listed::new(classes),
        launch: integer_at(table, "launch"),
        recover: integer_at(table, "recover"),
        cells: integer_at(table, "cells"),
    })
}

/// The sidings of an array.
fn siding_list(alloc: Global, format: Format, array: &[Value]) -> Result<Vec<Siding>, FileErr>
    ensures right { IfOk result (λ list. sidings_fault format (items_view array.now) ≡ None) }
    ensures sidings { IfOk result (λ list. list.items ≡ sidings_in format (items_view array.now)) }
    ensures refused { IfErr result (λ error. ReportsFault error (sidings_fault format (items_view array.now))) }
{
    let mut list = Vec::new(alloc);
    for value in array {
        match value.as_table() {
            Some(table) => list.push(siding(alloc, format, table)?)?,
            None => {}
        }
    }
    Ok(list)
}

/// Adds the entry of a class, if the table has one.
fn add_unit(
    alloc: Global,
    list: &mut Vec<(Class, Listed<i64>)>,
    class: Class,
    table: &Table,
) -> Result<(), AllocError>
    ensures { IfOk result (λ done. list.new.items ≡ list.old.items ++ unit_in class (get_member (class_name class) (table_view table.now))) }
{
    if let Some(value) = value_at(table, class_name(class)) {
        let stages = integers(alloc, elements_of(value))?;
        list.push((class, Listed::new(stages)))?;
    }
    Ok(())
}

/// The entries of a table, in the order of these classes.
fn unit_list(
    alloc: Global,
    classes: &[Class],
    table: &Table,
) -> Result<Vec<(Class, Listed<i64>)>, AllocError>
    ensures { IfOk result (λ list. list.items ≡ units_among classes.now (table_view table.now)) }
{
    let mut list = Vec::new(alloc);
    for class in classes {
        add_unit(alloc, &mut list, *class, table)?;
    }
    Ok(list)
}

/// The units of a document.
#[tactic(auto, unfolding(crate::specs::Tables::entries_fault))]
fn checked_units(
    alloc: Global,
    format: Format,
    table: &Table,
) -> Result<Vec<(Class, Listed<i64>)>, FileErr>
    ensures right { IfOk result (λ list. entries_fault (TheUnits format) (members_at (codes "units") (table_view table.now)) ≡ None) }
    ensures units { IfOk result (λ list. list.items ≡ units_among computed_classes (members_at (codes "units") (table_view table.now))) }
    ensures refused { IfErr result (λ error. ReportsFault error (entries_fault (TheUnits format) (members_at (codes "units") (table_view table.now)))) }
{
    match table_at(table, "units") {
        Some(units) => {
            check_entries(alloc, TableKind::Units(format), units)?;
            Ok(unit_list(alloc, &CLASSES, units)?)
        }
        None => Ok(Vec::new(alloc)),
    }
}

/// The format that the number at the key `format` gives.
fn format_of(number: i64) -> Format
    ensures { result ≡ format_of number }
{
    if number == 2 {
        Format::Second
    } else {
        Format::First
    }
}

/// The format of the document: 2 if its key `format` says so, otherwise 1.
#[tactic(auto, unfolding(crate::specs::Reading::format_in))]
fn format_in(table: &Table) -> Format
    ensures { result ≡ format_in (table_view table.now) }
{
    format_of(integer_at(table, "format"))
}

/// Tests that the format is 1 or 2.
fn check_format(format: Format, number: i64) -> Result<(), FileErr>
    ensures ok { IfOk result (λ done. format_fault format number ≡ None) }
    ensures refused { IfErr result (λ error. format_fault format number ≡ Some error) }
{
    match format {
        Format::First if number != 1 => Err(FileErr::UnknownFormat(number)),
        Format::First | Format::Second => Ok(()),
    }
}

/// Whether there is a cache: in format 2 if its key says so, in format 1 never.
fn cache_in(format: Format, table: &Table) -> bool
    ensures { result ≡ cache_in format (table_view table.now) }
{
    match format {
        Format::First => false,
        Format::Second => truth_at(table, "cache"),
    }
}

/// The parts that the tables of a document request, in a format.
#[tactic(auto, unfolding(crate::specs::Reading::tables_fault, crate::specs::Reading::parts_in))]
fn read_tables(alloc: Global, format: Format, table: &Table) -> Result<Parts, FileErr>
    ensures right { IfOk result (λ parts. tables_fault format (table_view table.now) ≡ None) }
    ensures parts { IfOk result (λ parts. parts ≡ parts_in format (table_view table.now)) }
    ensures refused { IfErr result (λ error. ReportsFault error (tables_fault format (table_view table.now))) }
{
    check_entries(alloc, TableKind::Top(format), table)?;
    check_format(format, integer_at(table, "format"))?;
    let units = checked_units(alloc, format, table)?;
    let sidings = siding_list(alloc, format, elements(table, "siding"))?;
    Ok(Parts {
        stages: integer_at(table, "stages"),
        lane: integer_at(table, "lane"),
        cache: cache_in(format, table),
        units: Listed::new(units),
        sidings: Listed::new(sidings),
    })
}

/// The layout that a document describes.
#[tactic(auto, unfolding(crate::specs::Reading::fault_of))]
fn layout_in(alloc: Global, table: &Table) -> Result<Layout, FileErr>
    ensures right { IfOk result (λ layout. fault_of (table_view table.now) ≡ None) }
    ensures layout { IfOk result (λ layout. layout ≡ plan_of (requested_parts (table_view table.now))) }
    ensures refused { IfErr result (λ error. ReportsFault error (fault_of (table_view table.now))) }
{
    let parts = read_tables(alloc, format_in(table), table)?;
    match check(&parts) {
        Ok(layout) => Ok(layout),
        Err(error) => Err(FileErr::Refused(error)),
    }
}

/// The same, if the layout may break the rule on where control turns.
#[tactic(auto, unfolding(crate::specs::Reading::loose_fault_of))]
fn loose_layout_in(alloc: Global, table: &Table) -> Result<LooseLayout, FileErr>
    ensures right { IfOk result (λ layout. loose_fault_of (table_view table.now) ≡ None) }
    ensures layout { IfOk result (λ layout. layout ≡ plan_of (requested_parts (table_view table.now))) }
    ensures refused { IfErr result (λ error. ReportsFault error (loose_fault_of (table_view table.now))) }
{
    let parts = read_tables(alloc, format_in(table), table)?;
    match check_loosely(&parts) {
        Ok(layout) => Ok(layout),
        Err(error) => Err(FileErr::Refused(error)),
    }
}

/// The maximum length of a layout file, in bytes.
pub const MOST_LAYOUT: usize = 65_536;

/// The document that the file is.
fn document(alloc: Global, file: &[u8]) -> Result<Table, FileErr>
    ensures short { IfOk result (λ table. length file.now ≤ most_layout_bytes) }
    ensures document { IfOk result (λ table. IsDocument file.now (table_view table)) }
    ensures refused { IfErr result (λ error. LacksDocument file.now error) }
{
    if file.len() > MOST_LAYOUT {
        return Err(FileErr::TooLong);
    }
    match toml::table_from_slice(alloc, file) {
        Ok(table) => Ok(table),
        Err(error) => Err(if error.is_memory() {
            FileErr::NoMemory
        } else {
            FileErr::NotToml
        }),
    }
}

/// Reads a layout file of format 1 or 2: a TOML document with the keys `format`, `stages`, `lane`, the table `units`,
/// and the array of tables `siding`; format 2 also has the key `cache`, and the classes `mul` and `div`.
///
/// The tables are tested in this order: the document, `units`, each siding. In each, unknown keys are reported first,
/// then missing ones, then values of the wrong type, each time the first key in byte order; then the format, or the
/// first name in a siding that is not the name of a class. The requested layout is tested last.
pub fn read_layout(alloc: Global, file: &[u8]) -> Result<Layout, FileErr>
    ensures ok { IfOk result (λ layout. Describes file.now layout) }
    ensures refused { IfErr result (λ error. LayoutFails file.now error) }
{
    let table = document(alloc, file)?;
    layout_in(alloc, &table)
}

/// Reads a layout file as `read_layout` does, but also accepts a layout that breaks only the rule on where control
/// turns.
pub fn read_layout_loosely(alloc: Global, file: &[u8]) -> Result<LooseLayout, FileErr>
    ensures ok { IfOk result (λ layout. DescribesLoosely file.now layout) }
    ensures refused { IfErr result (λ error. LooseLayoutFails file.now error) }
{
    let table = document(alloc, file)?;
    loose_layout_in(alloc, &table)
}
