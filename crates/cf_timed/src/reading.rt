//! Reading delays.

ghost use Rattle.std.specs.Prelude.{◌≡◌, ◌<◌, ◌≤◌, All, IfOk, IfSome, MatchResult, Ok, Err, length};
ghost use Rattle.cf_timed.specs.Delays.{IsSpan, span_count};
ghost use Rattle.cf_timed.specs.DelayLines.{class_first, class_named, delays_in, told_after_kind, line_told, delay_range, slot_named, span_told_there, span_word, ticks_word, words_told};
ghost use Rattle.cf_timed.specs.Limits.{most_delays};

use crate::delays::{Delays, class_slot};
use crate::span::Span;
use cf_layout::CLASSES;
use layout_file::class_name;
use run_scripts::{DelayErr, DelayKind, Words, is_skipped, place_named};
use rv_inst::Class;
use rv_text::{cut_at, cut_line, find_byte, numeral};
use texts::is_ascii;

/// The number of ticks that a word gives, if it gives one.
#[tactic(auto, unfolding(crate::specs::DelayLines::ticks_word))]
fn ticks_word(word: &[u8]) -> Option<u32>
    ensures ticks { result ≡ ticks_word word.now }
    ensures within { IfSome result (λ ticks. (1 ≤ ticks) × (ticks ≤ 1000)) }
{
    let ticks = numeral(word, 10, 4)?;
    if 1 <= ticks && ticks <= 1000 {
        Some(ticks as u32)
    } else {
        None
    }
}

/// The range between the numbers that two words give, if the second is not smaller than the first.
#[tactic(auto, unfolding(crate::specs::DelayLines::delay_range))]
fn range_of(first: &[u8], last: &[u8]) -> Option<Span>
    ensures range { result ≡ delay_range first.now last.now }
    ensures is_span { IfSome result IsSpan }
{
    let least = ticks_word(first)?;
    let greatest = ticks_word(last)?;
    if least <= greatest {
        Some(Span { least, greatest })
    } else {
        None
    }
}

/// The delay that a word gives, if it gives one: a number of ticks, or two with a hyphen between them.
#[tactic(auto, unfolding(crate::specs::DelayLines::span_word))]
fn span_word(word: &[u8]) -> Option<Span>
    ensures span { result ≡ span_word word.now }
    ensures is_span { IfSome result IsSpan }
{
    let at = find_byte(word, b'-');
    if at < word.len() {
        let (first, last) = cut_at(word, at);
        range_of(first, last)
    } else {
        range_of(word, word)
    }
}

/// The class that a word names, one of those that are computed.
#[tactic(auto, unfolding(crate::specs::DelayLines::class_named))]
fn class_named(word: &[u8]) -> Option<Class>
    ensures { result ≡ class_named word.now }
{
    CLASSES
        .iter()
        .copied()
        .find(|class| class_name(*class).as_bytes() == word)
}

/// The index at which the delays by class of a kind begin, if it has any.
fn class_first(kind: usize) -> Option<usize>
    ensures first { result ≡ class_first kind }
    ensures within { IfSome result (λ first. first ≤ 32) }
{
    match kind {
        5 => Some(14),
        7 => Some(23),
        10 => Some(32),
        _ => None,
    }
}

/// The index of the delay for the class that a word names, if the kind has delays by class.
#[tactic(auto, unfolding(crate::specs::DelayLines::slot_named))]
fn slot_named(kind: usize, word: &[u8]) -> Option<usize>
    requires { kind < 14 }
    ensures slot { result ≡ slot_named kind word.now }
    ensures within { IfSome result (λ slot. slot < span_count) }
{
    let first = class_first(kind)?;
    let class = class_named(word)?;
    Some(class_slot(kind, first, class))
}

/// Records the delay that a word gives, if no earlier line has given one and no word is left.
#[tactic(auto, unfolding(crate::specs::DelayLines::span_told_there))]
fn read_span(
    named: &mut [Option<Span>; 41],
    slot: usize,
    word: &[u8],
    rest: &Words<'_>,
) -> Result<(), DelayKind>
    requires { slot < span_count }
    ensures told { MatchResult result (λ _. span_told_there named.old slot word.now rest.now ≡ Ok named.new)
        (λ e. span_told_there named.old slot word.now rest.now ≡ Err e) }
    ensures spans { All (λ span. IfSome span IsSpan) named.old → All (λ span. IfSome span IsSpan) named.new }
{
    if named[slot].is_some() {
        return Err(DelayKind::KindTwice);
    }
    let span = span_word(word).ok_or(DelayKind::BadDelay)?;
    if !rest.is_empty() {
        return Err(DelayKind::ExtraWords);
    }
    named[slot] = Some(span);
    Ok(())
}

/// Records what the words after a kind give.
#[tactic(auto, unfolding(crate::specs::DelayLines::told_after_kind))]
fn read_kind(
    named: &mut [Option<Span>; 41],
    kind: usize,
    mut words: Words<'_>,
) -> Result<(), DelayKind>
    requires { kind < 14 }
    ensures told { MatchResult result (λ _. told_after_kind named.old kind words.entry ≡ Ok named.new) (λ e. told_after_kind named.old kind words.entry ≡ Err e) }
    ensures spans { All (λ span. IfSome span IsSpan) named.old → All (λ span. IfSome span IsSpan) named.new }
{
    let word = words.next();
    match slot_named(kind, word) {
        Some(slot) => {
            let word = words.next();
            read_span(named, slot, word, &words)
        }
        None => read_span(named, kind, word, &words),
    }
}

/// Records what the words give.
#[tactic(auto, unfolding(crate::specs::DelayLines::words_told))]
fn read_words(named: &mut [Option<Span>; 41], mut words: Words<'_>) -> Result<(), DelayKind>
    ensures told { MatchResult result (λ _. words_told named.old words.entry ≡ Ok named.new) (λ e. words_told named.old words.entry ≡ Err e) }
    ensures spans { All (λ span. IfSome span IsSpan) named.old → All (λ span. IfSome span IsSpan) named.new }
{
    let kind = place_named(words.next()).ok_or(DelayKind::UnknownKind)?;
    read_kind(named, kind, words)
}

/// Records what the line gives.
#[tactic(auto, unfolding(crate::specs::DelayLines::line_told))]
fn read_line(named: &mut [Option<Span>; 41], line: &[u8]) -> Result<(), DelayKind>
    ensures told { MatchResult result (λ _. line_told named.old line.now ≡ Ok named.new) (λ e. line_told named.old line.now ≡ Err e) }
    ensures spans { All (λ span. IfSome span IsSpan) named.old → All (λ span. IfSome span IsSpan) named.new }
{
    if is_ascii(line) {
        read_words(named, Words::of(line))
    } else {
        Err(DelayKind::NotAscii)
    }
}

/// The maximum length of a text of delays, in bytes.
pub const MOST_DELAYS: usize = 65_536;

/// The delays that the text gives, one in each line: a kind of move and its delay, which is a number of ticks or a
/// range of them with a hyphen; or `execute`, `launch` or `recover`, a class, and the delay of the instructions of that
/// class. A class that no line gives has the delay of its kind, and a kind that no line gives takes one tick. An error
/// is the first line that gives no delay, with the first refusal of `NotAscii`, `UnknownKind`, `KindTwice`, `BadDelay`
/// and `ExtraWords`. A comment and a line without words are skipped.
#[tactic(auto, unfolding(crate::specs::DelayLines::delays_in))]
pub fn read_delays(text: &[u8]) -> Result<Delays, DelayErr>
    requires { length text.now ≤ most_delays }
    ensures { result ≡ delays_in text.now }
{
    let mut named = [None; 41];
    let mut rest = text;
    let mut above = 0;
    while !rest.is_empty() {
        let (line, after) = cut_line(rest);
        let number = above + 1;
        if !is_skipped(line) {
            read_line(&mut named, line).map_err(|kind| DelayErr { line: number, kind })?;
        }
        above = number;
        rest = after;
    }
    Ok(Delays::filled(&named))
}
