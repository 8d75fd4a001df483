//! How a number is spelled.
#![tactic(auto, unfolding(crate::specs::Numbers::magnitude, crate::specs::Numbers::number_of))]

ghost use Rattle.std.specs.Prelude.{◌≡◌, ◌^◌, ◌≤◌, ◌<◌, IfSome};
ghost use Rattle.rv_text.specs.Numbers.{numeral, magnitude, number_of};

/// The value of one to `most` digits of the base.
#[tactic(auto, using(crate::proofs::Numerals::numerals), unfolding(crate::specs::Numbers::numeral, crate::specs::Numbers::is_numeral))]
pub fn numeral(digits: &[u8], base: u32, most: usize) -> Option<u64>
    requires least { 2 ≤ base }
    requires greatest { base ≤ 36 }
    requires fits { base ^ most ≤ 2 ^ 40 }
    ensures value { result ≡ numeral base most digits.now }
    ensures below { IfSome result (λ n. n < base ^ most) }
    ensures small { IfSome result (λ n. n < 2 ^ 40) }
{
    if digits.is_empty() || digits.len() > most {
        return None;
    }
    let mut value = 0u64;
    for byte in digits {
        let digit = char::from(*byte).to_digit(base)?;
        value = value * u64::from(base) + u64::from(digit);
    }
    Some(value)
}

fn magnitude(text: &[u8]) -> Option<u64>
    ensures value { result ≡ magnitude text.now }
    ensures small { IfSome result (λ n. n < 2 ^ 40) }
{
    match text.strip_prefix(b"0x") {
        Some(digits) => numeral(digits, 16, 8),
        None => numeral(text, 10, 10),
    }
}

/// The number that a text spells: at most ten decimal digits, or `0x` and at most eight hexadecimal digits; a leading
/// `-` negates it. It is `None` for any other text.
pub fn read_number(text: &[u8]) -> Option<i64>
    ensures { result ≡ number_of text.now }
{
    match text.strip_prefix(b"-") {
        Some(digits) => Some(-(magnitude(digits)? as i64)),
        None => Some(magnitude(text)? as i64),
    }
}
