//! What an observation is of.

ghost use Rattle.std.specs.Prelude.{◌≡◌, ◌<◌, ◌≤◌, IfSome, decimal};
ghost use Rattle.std.specs.Str.{bytes_eq};
ghost use Rattle.cf_log.specs.Lines.{move_number_in, register_of_word, subject_in, subject_named};

use crate::said::ObservedPart;
use itoa::Buffer;
use rv_text::{numeral, split_name};

/// Whether a word is this number in decimal, without leading zeros.
pub(crate) fn is_decimal(word: &[u8], number: u64) -> bool
    ensures { result ≡ bytes_eq (decimal number) word.now }
{
    let mut buffer = Buffer::new();
    buffer.format(number).as_bytes() == word
}

/// The number that the first word gives in decimal, without leading zeros.
#[tactic(auto, unfolding(crate::specs::Lines::move_number_in))]
fn number_in(text: &[u8]) -> Option<u32>
    ensures { result ≡ move_number_in text.now }
{
    let (word, _) = split_name(text);
    match numeral(word, 10, 9) {
        Some(number) => {
            if is_decimal(word, number) {
                Some(number as u32)
            } else {
                None
            }
        }
        None => None,
    }
}

/// The register of a word `xRR=V`.
#[tactic(auto, unfolding(crate::specs::Lines::register_of_word))]
fn register_in(word: &[u8]) -> Option<u8>
    ensures register { result ≡ register_of_word word.now }
    ensures within { IfSome result (λ register. register < 32) }
{
    if word.len() < 4 || !word.starts_with(b"x") || !word[3..].starts_with(b"=") {
        return None;
    }
    match numeral(&word[1..3], 10, 2) {
        Some(register) => {
            if register < 32 {
                Some(register as u8)
            } else {
                None
            }
        }
        None => None,
    }
}

/// What an observation is about that begins with this word, followed by these.
#[tactic(auto, unfolding(crate::specs::Lines::subject_named))]
fn subject_named(word: &[u8], after: &[u8]) -> Option<ObservedPart>
    ensures { result ≡ subject_named word.now after.now }
{
    if word == b"retire".as_slice() {
        Some(ObservedPart::Retire)
    } else if word == b"fetch".as_slice() {
        Some(ObservedPart::Fetch)
    } else if word == b"lane".as_slice() {
        Some(ObservedPart::Lane)
    } else if word == b"cache".as_slice() {
        Some(ObservedPart::Cache)
    } else if word == b"stage".as_slice() {
        Some(ObservedPart::Stage(number_in(after)))
    } else if word == b"siding".as_slice() {
        Some(ObservedPart::Siding(number_in(after)))
    } else if word == b"ended".as_slice() {
        Some(ObservedPart::Ended)
    } else {
        match register_in(word) {
            Some(register) => Some(ObservedPart::Register(register)),
            None => None,
        }
    }
}

/// What the words are an observation of, if they are one.
#[tactic(auto, unfolding(crate::specs::Lines::subject_in))]
pub fn subject_in(text: &[u8]) -> Option<ObservedPart>
    ensures { result ≡ subject_in text.now }
{
    let (word, after) = split_name(text);
    subject_named(word, after)
}
