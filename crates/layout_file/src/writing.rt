//! Writing a layout file.
#![tactic(auto, using(std::proofs::lemmas::List::append_assoc), unfolding(crate::specs::Text::pair_line))]

ghost use Rattle.std.specs.Prelude.{◌≡◌, ◌<◌, ◌≤◌, ◌++◌, IfOk, codes, decimal, drop, length, map, string_bytes, IsUtf8};
ghost use Rattle.layout_file.specs.Names.{class_name};
ghost use Rattle.layout_file.specs.Answers.{ReadsAs};
ghost use Rattle.layout_file.specs.Text.{pair_line, array_rest, array_text, quoted_name, unit_line, unit_lines, numbers_text, siding_text, siding_texts, needed_format, truth_text, cache_key_line, format_text, top_text, body_text, layout_text};
ghost use Rattle.cf_layout.specs.Layout.{computed_classes, siding_plan_at, stages_of};
ghost use Rattle.cf_layout.specs.Accepted.{IsAccepted};

use crate::classes::class_name;
use crate::format::Format;
use cf_layout::{CLASSES, Layout};
use itoa::Buffer;
use rv_inst::Class;
use std::alloc::{AllocError, Global};

fn push_number(text: &mut String, number: u32) -> Result<(), AllocError>
    ensures { IfOk result (λ done. string_bytes text.new ≡ string_bytes text.old ++ decimal number) }
{
    let mut buffer = Buffer::new();
    text.push_str(buffer.format(number))
}

fn push_pair(text: &mut String, key: &str, number: u32) -> Result<(), AllocError>
    ensures { IfOk result (λ done. string_bytes text.new ≡ string_bytes text.old ++ pair_line key.now (decimal number)) }
{
    text.push_str(key)?;
    text.push_str(" = ")?;
    push_number(text, number)?;
    text.push_str("\n")
}

fn push_rest(text: &mut String, numbers: &[u32]) -> Result<(), AllocError>
    ensures { IfOk result (λ done. string_bytes text.new ≡ string_bytes text.old ++ array_rest (map decimal numbers.now)) }
{
    for number in numbers {
        text.push_str(", ")?;
        push_number(text, *number)?;
    }
    text.push_str("]")
}

fn push_numbers(text: &mut String, numbers: &[u32]) -> Result<(), AllocError>
    ensures { IfOk result (λ done. string_bytes text.new ≡ string_bytes text.old ++ array_text (map decimal numbers.now)) }
{
    match numbers {
        [] => text.push_str("[]"),
        [first, rest @ ..] => {
            text.push_str("[")?;
            push_number(text, *first)?;
            push_rest(text, rest)
        }
    }
}

/// Adds a text between two others.
fn push_between(
    text: &mut String,
    before: &str,
    between: &str,
    after: &str,
) -> Result<(), AllocError>
    ensures { IfOk result (λ done. string_bytes text.new ≡ string_bytes text.old ++ (before.now ++ (between.now ++ after.now))) }
{
    text.push_str(before)?;
    text.push_str(between)?;
    text.push_str(after)
}

fn push_name(text: &mut String, class: Class) -> Result<(), AllocError>
    ensures { IfOk result (λ done. string_bytes text.new ≡ string_bytes text.old ++ quoted_name class) }
{
    push_between(text, "\"", class_name(class), "\"")
}

fn push_more_names(text: &mut String, classes: &[Class]) -> Result<(), AllocError>
    ensures { IfOk result (λ done. string_bytes text.new ≡ string_bytes text.old ++ array_rest (map quoted_name classes.now)) }
{
    for class in classes {
        text.push_str(", ")?;
        push_name(text, *class)?;
    }
    text.push_str("]")
}

fn push_names(text: &mut String, classes: &[Class]) -> Result<(), AllocError>
    ensures { IfOk result (λ done. string_bytes text.new ≡ string_bytes text.old ++ array_text (map quoted_name classes.now)) }
{
    match classes {
        [] => text.push_str("[]"),
        [first, rest @ ..] => {
            text.push_str("[")?;
            push_name(text, *first)?;
            push_more_names(text, rest)
        }
    }
}

fn push_stages(text: &mut String, class: Class, stages: &[u32]) -> Result<(), AllocError>
    ensures { IfOk result (λ done. string_bytes text.new ≡ string_bytes text.old ++ pair_line (class_name class) (array_text (map decimal stages.now))) }
{
    text.push_str(class_name(class))?;
    text.push_str(" = ")?;
    push_numbers(text, stages)?;
    text.push_str("\n")
}

/// The line of a unit, unless it has no stage.
#[tactic(auto, using(crate::proofs::Lines::some_line))]
fn push_unit(text: &mut String, class: Class, stages: &[u32]) -> Result<(), AllocError>
    ensures { IfOk result (λ done. string_bytes text.new ≡ string_bytes text.old ++ unit_line class stages.now) }
{
    match stages {
        [] => Ok(()),
        [_, ..] => push_stages(text, class, stages),
    }
}

fn push_units(
    text: &mut String,
    alloc: Global,
    layout: &Layout,
    classes: &[Class],
) -> Result<(), AllocError>
    ensures { IfOk result (λ done. string_bytes text.new ≡ string_bytes text.old ++ unit_lines layout.now classes.now) }
{
    for class in classes {
        let stages = layout.unit_stages(alloc, *class)?;
        push_unit(text, *class, &stages)?;
    }
    Ok(())
}

fn push_classes(text: &mut String, classes: &[Class]) -> Result<(), AllocError>
    ensures { IfOk result (λ done. string_bytes text.new ≡ string_bytes text.old ++ pair_line (codes "classes") (array_text (map quoted_name classes.now))) }
{
    text.push_str("classes = ")?;
    push_names(text, classes)?;
    text.push_str("\n")
}

#[tactic(auto, using(std::proofs::lemmas::List::append_assoc), unfolding(crate::specs::Text::numbers_text, cf_layout::specs::Layout::launch_stage, cf_layout::specs::Layout::recover_stage, cf_layout::specs::Layout::cells_of))]
fn push_siding_numbers(text: &mut String, layout: &Layout, siding: u32) -> Result<(), AllocError>
    requires { siding < length layout.now.sidings }
    ensures { IfOk result (λ done. string_bytes text.new ≡ string_bytes text.old ++ numbers_text (siding_plan_at layout.now siding)) }
{
    push_pair(text, "launch", layout.launch_stage(siding))?;
    push_pair(text, "recover", layout.recover_stage(siding))?;
    push_pair(text, "cells", layout.cells_of(siding))?;
    Ok(())
}

#[tactic(auto, using(std::proofs::lemmas::List::append_assoc), unfolding(crate::specs::Text::siding_text))]
fn push_siding(
    text: &mut String,
    alloc: Global,
    layout: &Layout,
    siding: u32,
) -> Result<(), AllocError>
    requires { siding < length layout.now.sidings }
    ensures { IfOk result (λ done. string_bytes text.new ≡ string_bytes text.old ++ siding_text (siding_plan_at layout.now siding)) }
{
    let classes = layout.siding_classes(alloc, siding)?;
    text.push_str("\n[[siding]]\n")?;
    push_classes(text, &classes)?;
    push_siding_numbers(text, layout, siding)?;
    Ok(())
}

#[tactic(auto, using(std::proofs::lemmas::List::append_assoc, crate::proofs::Lines::next_siding, crate::proofs::Lines::no_siding_left))]
fn push_sidings(text: &mut String, alloc: Global, layout: &Layout) -> Result<(), AllocError>
    ensures { IfOk result (λ done. string_bytes text.new ≡ string_bytes text.old ++ siding_texts layout.now.sidings) }
{
    for siding in 0..layout.siding_count() {
        push_siding(text, alloc, layout, siding)?;
    }
    Ok(())
}

#[tactic(auto, unfolding(crate::specs::Text::pair_line))]
fn push_format(text: &mut String, format: Format) -> Result<(), AllocError>
    ensures { IfOk result (λ done. string_bytes text.new ≡ string_bytes text.old ++ pair_line (codes "format") (format_text format)) }
{
    match format {
        Format::First => text.push_str("format = 1\n"),
        Format::Second => text.push_str("format = 2\n"),
    }
}

#[tactic(auto, unfolding(crate::specs::Text::pair_line))]
fn push_cache(text: &mut String, format: Format, cache: bool) -> Result<(), AllocError>
    ensures { IfOk result (λ done. string_bytes text.new ≡ string_bytes text.old ++ cache_key_line format cache) }
{
    match (format, cache) {
        (Format::First, _) => Ok(()),
        (Format::Second, true) => text.push_str("cache = true\n"),
        (Format::Second, false) => text.push_str("cache = false\n"),
    }
}

#[tactic(auto, using(std::proofs::lemmas::List::append_assoc), unfolding(crate::specs::Text::top_text))]
fn push_top(text: &mut String, layout: &Layout, format: Format) -> Result<(), AllocError>
    ensures accepted { IfOk result (λ done. IsAccepted layout.now) }
    ensures head { IfOk result (λ done. string_bytes text.new ≡ string_bytes text.old ++ top_text format layout.now) }
{
    push_format(text, format)?;
    push_pair(text, "stages", layout.stages())?;
    push_pair(text, "lane", layout.lane())?;
    push_cache(text, format, layout.cache())?;
    Ok(())
}

#[tactic(auto, using(std::proofs::lemmas::List::append_assoc), unfolding(crate::specs::Text::body_text))]
fn push_body(text: &mut String, alloc: Global, layout: &Layout) -> Result<(), AllocError>
    ensures { IfOk result (λ done. string_bytes text.new ≡ string_bytes text.old ++ body_text layout.now) }
{
    text.push_str("\n[units]\n")?;
    push_units(text, alloc, layout, &CLASSES)?;
    push_sidings(text, alloc, layout)?;
    Ok(())
}

/// The lowest format that has what the layout has: the cache, and units or sidings that multiply and divide, need
/// format 2.
fn needed_format(layout: &Layout) -> Format
    ensures { result ≡ needed_format layout.now }
{
    if layout.cache() || layout.has_mul() {
        Format::Second
    } else {
        Format::First
    }
}

/// The canonical form of a layout.
#[tactic(auto, using(std::proofs::lemmas::List::append_assoc), unfolding(crate::specs::Text::layout_text))]
fn layout_text(alloc: Global, layout: &Layout) -> Result<String, AllocError>
    ensures text { IfOk result (λ text. string_bytes text ≡ layout_text layout.now) }
    ensures accepted { IfOk result (λ text. IsAccepted layout.now) }
    ensures utf8 { IfOk result (λ text. IsUtf8 (string_bytes text)) }
{
    let mut text = String::new(alloc);
    push_top(&mut text, layout, needed_format(layout))?;
    push_body(&mut text, alloc, layout)?;
    let _ = text.as_str();
    Ok(text)
}

/// Writes the canonical form of a layout: in format 1, or in format 2 if the layout has the cache or multiplies and
/// divides. [`read_layout`](crate::read_layout) returns the same layout, unless memory runs out.
#[tactic(auto, using(crate::proofs::ReadBack::text_reads))]
pub fn write_layout(alloc: Global, layout: &Layout) -> Result<Vec<u8>, AllocError>
    ensures text { IfOk result (λ file. file.items ≡ layout_text layout.now) }
    ensures read_back { IfOk result (λ file. ReadsAs file.items layout.now) }
{
    let text = layout_text(alloc, layout)?;
    Ok(text.into_bytes())
}
