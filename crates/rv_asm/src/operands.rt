//! The operands of directives and pseudo-instructions.

ghost use Rattle.std.specs.Prelude.{◌≡◌, ◌≤ℤ◌, ◌∷◌, ◌<◌, ◌+◌, length, Ok, Err, None, Some, MatchOption, pos, negsuc};
ghost use Rattle.std.specs.Option.{option_map};
ghost use Rattle.rv_text.specs.Pieces.{pieces};
ghost use Rattle.rv_text.specs.Fields.{number_operand};
ghost use Rattle.rv_asm.specs.Operands.{count_is, operand_texts, number_of_width, names_label, operands_left, left_length, is_placeable, are_placeable};

use crate::operations::Width;
use crate::scanning::begins_name;
use rv_text::{TextErr, count_operands, cut_at, find_byte, read_number, trim};

/// `WrongCount` if a text has another number of operands.
#[tactic(auto, unfolding(crate::specs::Operands::count_is))]
pub fn expect_count(wanted: u32, text: &[u8]) -> Result<(), TextErr>
    ensures { result ≡ count_is wanted text.now }
{
    let count = count_operands(text);
    if count == wanted as usize {
        return Ok(());
    }
    Err(TextErr::WrongCount {
        got: count.min(0xffff_ffff) as u32,
        wanted,
    })
}

/// The number that an operand spells, from `least` to `greatest`.
#[tactic(auto, unfolding(rv_text::specs::Fields::number_operand))]
pub fn number_between(least: i64, greatest: i64, text: &[u8]) -> Result<i64, TextErr>
    ensures { result ≡ number_operand least greatest text.now }
{
    let number = read_number(text).ok_or(TextErr::BadNumber)?;
    if least <= number && number <= greatest {
        Ok(number)
    } else {
        Err(TextErr::OutOfRange(number))
    }
}

/// A number that fits the width, signed or unsigned.
pub fn number_of_width(width: Width, text: &[u8]) -> Result<i64, TextErr>
    ensures { result ≡ number_of_width width text.now }
{
    match width {
        Width::Byte => number_between(-0x80, 0xff, text),
        Width::Half => number_between(-0x8000, 0xffff, text),
        Width::Word => number_between(-0x8000_0000, 0xffff_ffff, text),
    }
}

/// Whether an operand names a label.
pub fn names_label(width: Width, text: &[u8]) -> bool
    ensures { result ≡ names_label width text.now }
{
    match width {
        Width::Byte | Width::Half => false,
        Width::Word => begins_name(text),
    }
}

#[tactic(auto, unfolding(crate::specs::Operands::is_placeable))]
fn check_placeable(width: Width, text: &[u8]) -> Result<(), TextErr>
    ensures { result ≡ is_placeable width text.now }
{
    if !names_label(width, text) {
        number_of_width(width, text)?;
    }
    Ok(())
}

/// The operand at the start of a text, and the text after its comma, if there is one.
#[tactic(auto, using(crate::proofs::Splits::commas))]
pub fn cut_operand(text: &[u8]) -> (&[u8], Option<&[u8]>)
    ensures operands { operand_texts text.now ≡ result.0.now ∷ operands_left (option_map (λ rest. rest.now) result.1) }
    ensures shorter { left_length (option_map (λ rest. rest.now) result.1) < length text.now + 1 }
{
    let comma = find_byte(text, b',');
    if comma < text.len() {
        let (operand, rest) = cut_at(text, comma);
        (trim(operand), Some(rest))
    } else {
        (trim(text), None)
    }
}

/// The first refusal of the operands of a directive that places numbers, from left to right.
pub fn check_numbers(width: Width, text: &[u8]) -> Result<(), TextErr>
    ensures { result ≡ are_placeable width (operand_texts text.now) }
{
    let mut rest = Some(text);
    while let Some(operands) = rest {
        let (operand, after) = cut_operand(operands);
        check_placeable(width, operand)?;
        rest = after;
    }
    Ok(())
}
