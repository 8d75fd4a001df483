//! Amounts of retired instructions on the command line: numbers, or few digits with a letter for the unit.
#![tactic(auto)]

ghost use Rattle.std.specs.Prelude.{◌≡◌, ◌<◌, ◌≤◌, IfSome, option_map};
ghost use Rattle.cli_arguments.specs.Values.{amount_in, before_letter, bounded as is_bounded, digits_in, most_plain, number_before, unit_of};

use crate::numbers::{read_number, read_numeral};

/// The maximum amount that is written without a letter.
const MOST_PLAIN: u64 = 1_000_000_000;

/// The maximum number of digits before a letter.
const MOST_DIGITS: usize = 4;

/// An amount as it is written.
#[derive(Clone, Copy)]
struct Written<'a> {
    /// Its digits.
    digits: &'a str,
    /// Their unit.
    unit: u64,
}

/// The argument without this last letter, if it ends with it.
#[tactic(auto, using(crate::proofs::Letters::letters))]
fn before(argument: &str, letter: char) -> Option<&str>
    requires { letter < 128 }
    ensures { option_map (λ text. text.now) result ≡ before_letter letter argument.now }
{
    argument.strip_suffix(letter)
}

/// The digits of an argument, and their unit by its last letter.
#[tactic(auto, unfolding(crate::specs::Values::before_letter, crate::specs::Values::digits_in, crate::specs::Values::unit_of))]
fn split(argument: &str) -> Written<'_>
    ensures digits { result.digits.now ≡ digits_in argument.now }
    ensures unit { result.unit ≡ unit_of argument.now }
    ensures within { result.unit ≤ 1000000000 }
{
    if let Some(digits) = before(argument, 'k') {
        return Written {
            digits,
            unit: 1_000,
        };
    }
    if let Some(digits) = before(argument, 'M') {
        return Written {
            digits,
            unit: 1_000_000,
        };
    }
    if let Some(digits) = before(argument, 'G') {
        return Written {
            digits,
            unit: 1_000_000_000,
        };
    }
    Written {
        digits: argument,
        unit: 1,
    }
}

impl Written<'_> {
    /// The number that its digits write, if they are not too many.
    #[tactic(auto, unfolding(crate::specs::Values::number_before))]
    fn number(&self) -> Option<u64>
        ensures number { result ≡ number_before self.now.unit self.now.digits.now }
        ensures within { IfSome result (λ number. number ≤ most_plain) }
    {
        if self.unit == 1 {
            read_number(self.digits, MOST_PLAIN)
        } else {
            read_numeral(self.digits, MOST_DIGITS)
        }
    }
}

/// The amount, if it is within these bounds.
#[tactic(auto, unfolding(crate::specs::Values::bounded))]
fn bounded(amount: u64, least: u64, most: u64) -> Option<u64>
    ensures amount { result ≡ is_bounded least most amount }
    ensures within { IfSome result (λ amount. amount ≤ most) }
{
    (least <= amount && amount <= most).then_some(amount)
}

/// The amount that an argument writes, if it is within these bounds.
pub(crate) fn read_amount(argument: &str, least: u64, most: u64) -> Option<u64>
    ensures amount { result ≡ amount_in least most argument.now }
    ensures within { IfSome result (λ amount. amount ≤ most) }
{
    let written = split(argument);
    let number = written.number()?;
    bounded(number * written.unit, least, most)
}
