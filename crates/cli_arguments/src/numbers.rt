//! Numbers on the command line.
#![tactic(auto)]

ghost use Rattle.std.specs.Prelude.{◌≡◌, ◌<◌, ◌≤◌, ◌^◌, IfSome};
ghost use Rattle.std.specs.List.{list_all};
ghost use Rattle.texts.specs.Bytes.{is_digit};
ghost use Rattle.cli_arguments.specs.Values.{is_decimal_argument, count_in, number_up_to, numeral_in, positive_in};

/// The longest number: ten decimal digits.
const MOST_DIGITS: usize = 10;

/// The maximum number of statements of a drawn program.
const MOST_STATEMENTS: u64 = 30_000;

fn has_only_digits(argument: &str) -> bool
    ensures { result ≡ list_all is_digit argument.now }
{
    argument.as_bytes().iter().all(|byte| byte.is_ascii_digit())
}

fn is_numeral(argument: &str, longest: usize) -> bool
    ensures { result ≡ is_decimal_argument longest argument.now }
{
    !argument.is_empty() && argument.len() <= longest && has_only_digits(argument)
}

/// The number that an argument writes in decimal digits, at least one and at most `longest`.
#[tactic(auto, unfolding(crate::specs::Values::numeral_in), using(crate::proofs::Digits::digits))]
pub(crate) fn read_numeral(argument: &str, longest: usize) -> Option<u64>
    requires { longest ≤ 10 }
    ensures number { result ≡ numeral_in longest argument.now }
    ensures within { IfSome result (λ number. number < 10 ^ longest) }
{
    if !is_numeral(argument, longest) {
        return None;
    }
    argument.parse::<u64>().ok()
}

/// The number that an argument writes in 1 to 10 decimal digits, if it is at most `most`.
#[tactic(auto, unfolding(crate::specs::Values::number_up_to, crate::specs::Values::numeral_in))]
pub(crate) fn read_number(argument: &str, most: u64) -> Option<u64>
    ensures number { result ≡ number_up_to most argument.now }
    ensures within { IfSome result (λ number. number ≤ most) }
{
    let number = read_numeral(argument, MOST_DIGITS)?;
    (number <= most).then_some(number)
}

/// The same, if it is not 0.
#[tactic(auto, unfolding(crate::specs::Values::positive_in, crate::specs::Values::number_up_to))]
pub(crate) fn read_positive(argument: &str, most: u64) -> Option<u64>
    ensures number { result ≡ positive_in most argument.now }
    ensures within { IfSome result (λ number. number ≤ most) }
{
    let number = read_number(argument, most)?;
    (number >= 1).then_some(number)
}

/// The number of statements that an argument writes, from 1 to 30,000.
pub(crate) fn read_count(argument: &str) -> Option<u32>
    ensures { result ≡ count_in argument.now }
{
    let number = read_positive(argument, MOST_STATEMENTS)?;
    Some(number as u32)
}
