//! The meaning of a statement.
#![tactic(auto, unfolding(crate::specs::Reading::export_read, crate::specs::Reading::numbers_read, crate::specs::Reading::one_number, crate::specs::Reading::string_read, crate::specs::Reading::instruction_read, crate::specs::Reading::unknown_name))]

ghost use Rattle.std.specs.Prelude.{◌≡◌, ◌≤◌, ◌<◌, ◌^◌, pos, ◌≤ℤ◌, Ok, Err, IfOk, length};
ghost use Rattle.std.specs.Int.RustNames.{unsigned_abs};
ghost use Rattle.texts.specs.Answers.{and_then};
ghost use Rattle.rv_asm.specs.Answers.{as_text};
ghost use Rattle.rv_asm.specs.Operands.{count_is};
ghost use Rattle.rv_asm.specs.Items.{Section, Zeros};
ghost use Rattle.rv_asm.specs.Reading.{export_read, numbers_read, one_number, padding, string_read, directive_read, instruction_read, unknown_name, named_read, statement_read};
ghost use Rattle.rv_asm.specs.Seen.{ReadsItem, IsSoundStatement};

use crate::item::SourceItem;
use crate::operands::{check_numbers, expect_count};
use crate::operations::{Directive, Pseudo, Width};
use crate::pseudos::{jumped, read_pseudo};
use crate::refusal::AsmKind;
use crate::scanning::is_name;
use crate::strings::string_len;
use rv_text::{
    Mnemonic, Statement, TextErr, count_operands, number_in, operand, read_statement_of,
    split_name, trim,
};

/// A directive that selects a section: the text, or the data.
fn read_section(in_text: bool, text: &[u8]) -> Result<SourceItem<'_>, AsmKind>
    ensures item { ReadsItem result (as_text (and_then (count_is 0 text.now) (λ u. Ok (Section in_text)))) }
    ensures sound { IfOk result (λ item. IsSoundStatement item) }
{
    expect_count(0, text)?;
    Ok(SourceItem::Section(in_text))
}

fn read_export(text: &[u8]) -> Result<SourceItem<'_>, AsmKind>
    ensures item { ReadsItem result (as_text (export_read text.now)) }
    ensures sound { IfOk result (λ item. IsSoundStatement item) }
{
    expect_count(1, text)?;
    let name = operand(text, 0);
    if is_name(name) {
        Ok(SourceItem::Export(name))
    } else {
        Err(AsmKind::Text(TextErr::UnknownName))
    }
}

fn read_numbers(width: Width, text: &[u8]) -> Result<SourceItem<'_>, AsmKind>
    requires { length text.now ≤ 1048576 }
    ensures item { ReadsItem result (as_text (numbers_read width text.now)) }
    ensures sound { IfOk result (λ item. IsSoundStatement item) }
{
    if count_operands(text) == 0 {
        return Err(AsmKind::Text(TextErr::WrongCount { got: 0, wanted: 1 }));
    }
    check_numbers(width, text)?;
    Ok(SourceItem::Numbers(width, text))
}

/// The only operand of a directive: a number from 0 to `greatest`.
fn one_number(greatest: i32, text: &[u8]) -> Result<u32, TextErr>
    requires { pos 0 ≤ℤ greatest }
    ensures number { result ≡ one_number (unsigned_abs greatest) text.now }
    ensures within { IfOk result (λ n. n ≤ unsigned_abs greatest) }
{
    expect_count(1, text)?;
    Ok(number_in(0, greatest, operand(text, 0))?.unsigned_abs())
}

/// The distance from an address up to the next multiple of 2^exponent.
fn padding(address: u32, exponent: u32) -> u32
    requires { exponent ≤ 12 }
    ensures value { result ≡ padding address (2 ^ exponent) }
    ensures within { result ≤ 1048576 }
{
    let size = 1u32 << exponent;
    (size - address % size) % size
}

/// As many zeros as the operand says.
fn read_space(text: &[u8]) -> Result<SourceItem<'_>, AsmKind>
    ensures item { ReadsItem result (as_text (and_then (one_number 1048576 text.now) (λ n. Ok (Zeros n)))) }
    ensures sound { IfOk result (λ item. IsSoundStatement item) }
{
    Ok(SourceItem::Zeros(one_number(0x10_0000, text)?))
}

/// Zeros up to the next multiple of 2^n, for the operand n.
fn read_alignment(pc: u32, text: &[u8]) -> Result<SourceItem<'_>, AsmKind>
    ensures item { ReadsItem result (as_text (and_then (one_number 12 text.now) (λ n. Ok (Zeros (padding pc (2 ^ n)))))) }
    ensures sound { IfOk result (λ item. IsSoundStatement item) }
{
    Ok(SourceItem::Zeros(padding(pc, one_number(12, text)?)))
}

#[tactic(auto, unfolding(crate::specs::Reading::string_read), using(crate::proofs::Shorter::parts))]
fn read_string(zero: bool, text: &[u8]) -> Result<SourceItem<'_>, AsmKind>
    requires { length text.now ≤ 1048576 }
    ensures item { ReadsItem result (string_read zero text.now) }
    ensures sound { IfOk result (λ item. IsSoundStatement item) }
{
    let text = trim(text);
    match string_len(text) {
        Some(_) => Ok(SourceItem::Chars(text, zero)),
        None => Err(AsmKind::BadString),
    }
}

/// The meaning of a directive at an address.
#[tactic(auto, unfolding(crate::specs::Reading::directive_read))]
fn read_directive(directive: Directive, pc: u32, text: &[u8]) -> Result<SourceItem<'_>, AsmKind>
    requires { length text.now ≤ 1048576 }
    ensures item { ReadsItem result (directive_read directive pc text.now) }
    ensures sound { IfOk result (λ item. IsSoundStatement item) }
{
    match directive {
        Directive::Text => read_section(true, text),
        Directive::Data => read_section(false, text),
        Directive::Globl => read_export(text),
        Directive::Numbers(width) => read_numbers(width, text),
        Directive::Ascii => read_string(false, text),
        Directive::Asciz => read_string(true, text),
        Directive::Space => read_space(text),
        Directive::Align => read_alignment(pc, text),
    }
}

/// The meaning of an instruction at an address.
#[tactic(auto, unfolding(crate::specs::Reading::instruction_read), using(crate::proofs::Statements::statements))]
fn read_instruction(mnemonic: Mnemonic, pc: u32, text: &[u8]) -> Result<SourceItem<'_>, TextErr>
    ensures item { ReadsItem result (instruction_read mnemonic pc text.now) }
    ensures sound { IfOk result (λ item. IsSoundStatement item) }
{
    match read_statement_of(mnemonic, text)? {
        Statement::Whole(instr) => Ok(SourceItem::Single(instr)),
        Statement::Aimed(jump, target) => jumped(jump, pc, target),
    }
}

fn unknown(name: &[u8]) -> AsmKind
    ensures { result ≡ unknown_name name.now }
{
    if name.starts_with(b".") {
        AsmKind::UnknownDirective
    } else {
        AsmKind::Text(TextErr::UnknownName)
    }
}

/// The meaning of operands after a name.
#[tactic(auto, unfolding(crate::specs::Reading::named_read))]
fn read_named<'a>(name: &[u8], pc: u32, text: &'a [u8]) -> Result<SourceItem<'a>, AsmKind>
    requires { length text.now ≤ 1048576 }
    ensures item { ReadsItem result (named_read name.now pc text.now) }
    ensures sound { IfOk result (λ item. IsSoundStatement item) }
{
    if let Some(directive) = Directive::named(name) {
        return read_directive(directive, pc, text);
    }
    if let Some(pseudo) = Pseudo::named(name) {
        return Ok(read_pseudo(pseudo, pc, text)?);
    }
    match Mnemonic::named(name) {
        Some(mnemonic) => Ok(read_instruction(mnemonic, pc, text)?),
        None => Err(unknown(name)),
    }
}

/// The meaning of a statement at an address.
#[tactic(auto, unfolding(crate::specs::Reading::statement_read), using(crate::proofs::Shorter::parts))]
pub fn read_statement(pc: u32, text: &[u8]) -> Result<SourceItem<'_>, AsmKind>
    requires { length text.now ≤ 1048576 }
    ensures item { ReadsItem result (statement_read pc text.now) }
    ensures sound { IfOk result (λ item. IsSoundStatement item) }
{
    if trim(text).is_empty() {
        return Ok(SourceItem::Nothing);
    }
    let (name, after) = split_name(text);
    read_named(name, pc, after)
}
