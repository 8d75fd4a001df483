//! The time of a line.

ghost use Rattle.std.specs.Prelude.{◌≡◌, ◌<◌, ◌^◌, IfSome, length};
ghost use Rattle.rv_text.specs.Numbers.{numeral};
ghost use Rattle.cf_log.specs.Lines.{after_time, is_timed, time_read, time_told};

use crate::kind::LogKind;
use rv_text::split_name;

/// The maximum number of digits in a time.
const MOST_DIGITS: usize = 18;

/// The number that 1 to 18 decimal digits give.
#[tactic(auto, using(rv_text::proofs::Numerals::numerals), unfolding(rv_text::specs::Numbers::numeral, rv_text::specs::Numbers::is_numeral))]
fn digits_of(digits: &[u8]) -> Option<u64>
    ensures { result ≡ numeral 10 18 digits.now }
{
    if digits.is_empty() || digits.len() > MOST_DIGITS {
        return None;
    }
    let mut value = 0u64;
    for byte in digits {
        let digit = char::from(*byte).to_digit(10)?;
        value = value * 10 + u64::from(digit);
    }
    Some(value)
}

/// Whether a word begins as a time does.
#[tactic(auto, unfolding(crate::specs::Lines::is_timed))]
fn is_timed(word: &[u8]) -> bool
    ensures { result ≡ is_timed word.now }
{
    word.starts_with(b"@")
}

/// The time that a word gives, if it is not earlier than this one.
#[tactic(auto, unfolding(crate::specs::Lines::time_told))]
fn time_in(word: &[u8], earlier: u64) -> Result<u64, LogKind>
    ensures { result ≡ time_told earlier word.now }
{
    let digits = word.get(1..).unwrap_or(&[]);
    match digits_of(digits) {
        Some(time) => {
            if time < earlier {
                Err(LogKind::BadTime)
            } else {
                Ok(time)
            }
        }
        None => Err(LogKind::BadTime),
    }
}

/// The latest time up to and including a line, if this was the latest before it.
#[tactic(auto, unfolding(crate::specs::Lines::time_read))]
pub(crate) fn time_of(line: &[u8], earlier: u64) -> Result<u64, LogKind>
    ensures { result ≡ time_read earlier line.now }
{
    let (word, _) = split_name(line);
    if is_timed(word) {
        time_in(word, earlier)
    } else {
        Ok(earlier)
    }
}

/// The words of a line after its time, if it has one.
#[tactic(auto, unfolding(crate::specs::Lines::after_time))]
pub fn after_time(line: &[u8]) -> &[u8]
    ensures { result.now ≡ after_time line.now }
{
    let (word, after) = split_name(line);
    if is_timed(word) { after } else { line }
}
