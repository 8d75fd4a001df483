//! Operands that are read, each with its range.
#![tactic(auto, unfolding(crate::specs::Fields::register_in_text, crate::specs::Fields::number_operand, crate::specs::Fields::immediate_of, crate::specs::Fields::offset_in, crate::specs::Fields::base_in))]

ghost use Rattle.std.specs.Prelude.{◌≡◌, ◌-◌, ◌<◌, ◌≤◌, ◌^◌, ◌≤ℤ◌, ◌<ℤ◌, pos, negsuc, Ok, Err, Some, None, MatchOption, IfOk};
ghost use Rattle.texts.specs.Answers.{needed};
ghost use Rattle.rv_text.specs.Fields.{register_in_text, number_operand, immediate_in, field_below, is_shift, immediate_of, enclosed, offset_in, base_in};

use crate::numbers::read_number;
use crate::pieces::{find_byte, trim};
use crate::registers::read_register;
use crate::text_err::TextErr;
use rv_inst::ImmOp;

/// The register that an operand spells, or `BadRegister`.
pub fn register_in(text: &[u8]) -> Result<u8, TextErr>
    ensures value { result ≡ register_in_text text.now }
    ensures register { IfOk result (λ r. r < 32) }
{
    read_register(text).ok_or(TextErr::BadRegister)
}

/// The number that an operand spells, from `least` to `greatest`: `BadNumber` if it does not spell a number, and
/// `OutOfRange` with the number if that is outside the range.
pub fn number_in(least: i32, greatest: i32, text: &[u8]) -> Result<i32, TextErr>
    ensures value { result ≡ number_operand least greatest text.now }
    ensures least { IfOk result (λ z. least ≤ℤ z) }
    ensures greatest { IfOk result (λ z. z ≤ℤ greatest) }
{
    let number = read_number(text).ok_or(TextErr::BadNumber)?;
    if i64::from(least) <= number && number <= i64::from(greatest) {
        Ok(number as i32)
    } else {
        Err(TextErr::OutOfRange(number))
    }
}

fn immediate_in(text: &[u8]) -> Result<i32, TextErr>
    ensures { result ≡ immediate_in text.now }
{
    number_in(-0x800, 0x7ff, text)
}

/// The number below a limit that an operand spells.
pub(crate) fn field_below(limit: u32, text: &[u8]) -> Result<u32, TextErr>
    requires least { 0 < limit }
    requires greatest { limit < 2 ^ 31 }
    ensures { result ≡ field_below limit text.now }
{
    Ok(number_in(0, (limit - 1) as i32, text)?.unsigned_abs())
}

/// The immediate of an operation: for a shift, its amount.
pub(crate) fn immediate_of(op: ImmOp, text: &[u8]) -> Result<i32, TextErr>
    ensures { result ≡ immediate_of op text.now }
{
    match op {
        ImmOp::Sll | ImmOp::Srl | ImmOp::Sra => number_in(0, 31, text),
        _ => immediate_in(text),
    }
}

/// The number of an address such as `-4(x2)`.
pub(crate) fn offset_in(text: &[u8]) -> Result<i32, TextErr>
    ensures { result ≡ offset_in text.now }
{
    immediate_in(trim(&text[..find_byte(text, b'(')]))
}

/// The text between `(` and `)`, if the text begins with `(` and ends with `)`.
fn enclosed(text: &[u8]) -> Option<&[u8]>
    ensures { MatchOption result (enclosed text.now ≡ None) (λ inner. enclosed text.now ≡ Some inner.now) }
{
    text.strip_prefix(b"(")?.strip_suffix(b")")
}

/// The register of an address such as `-4(x2)`.
pub(crate) fn base_in(text: &[u8]) -> Result<u8, TextErr>
    ensures { result ≡ base_in text.now }
{
    match enclosed(&text[find_byte(text, b'(')..]) {
        Some(inner) => register_in(trim(inner)),
        None => Err(TextErr::BadRegister),
    }
}
