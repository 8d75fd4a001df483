//! How a line is split into a name and operands.
#![tactic(auto, unfolding(crate::specs::Pieces::without_front, crate::specs::Pieces::without_end, crate::specs::Pieces::trimmed, crate::specs::Pieces::name_part, crate::specs::Pieces::operand_part))]

ghost use Rattle.std.specs.Prelude.{◌≡◌, ◌≤◌, ◌==◌, length};
ghost use Rattle.std.specs.List.{position_or_len, after_first};
ghost use Rattle.rv_text.specs.Pieces.{is_blank, is_comma, without_front, without_end, trimmed, name_part, operand_part, operand_count, operand_at};

fn is_blank(byte: u8) -> bool
    ensures { result ≡ is_blank byte }
{
    byte == b' ' || byte == b'\t'
}

fn without_front(text: &[u8]) -> &[u8]
    ensures { result.now ≡ without_front text.now }
{
    let mut start = 0;
    while start < text.len() && is_blank(text[start]) {
        start += 1;
    }
    &text[start..]
}

fn without_end(text: &[u8]) -> &[u8]
    ensures { result.now ≡ without_end text.now }
{
    let mut end = text.len();
    while end > 0 && is_blank(text[end - 1]) {
        end -= 1;
    }
    &text[..end]
}

/// The text without leading and trailing blanks.
pub fn trim(text: &[u8]) -> &[u8]
    ensures { result.now ≡ trimmed text.now }
{
    without_end(without_front(text))
}

fn word_end(text: &[u8]) -> usize
    ensures index { result ≡ position_or_len is_blank text.now }
    ensures within { result ≤ length text.now }
{
    let mut end = 0;
    while end < text.len() && !is_blank(text[end]) {
        end += 1;
    }
    end
}

/// The name in a text, and the text after it.
pub fn split_name(text: &[u8]) -> (&[u8], &[u8])
    ensures name { result.0.now ≡ name_part text.now }
    ensures after { result.1.now ≡ operand_part text.now }
{
    let text = trim(text);
    let end = word_end(text);
    (&text[..end], &text[end..])
}

/// The index of the first occurrence of the byte, or the length if there is none.
pub fn find_byte(text: &[u8], byte: u8) -> usize
    ensures index { result ≡ position_or_len (λ b. b == byte) text.now }
    ensures within { result ≤ length text.now }
{
    for (index, other) in text.iter().enumerate() {
        if *other == byte {
            return index;
        }
    }
    text.len()
}

fn after_comma(text: &[u8]) -> &[u8]
    ensures { result.now ≡ after_first is_comma text.now }
{
    let comma = find_byte(text, b',');
    if comma < text.len() {
        &text[comma + 1..]
    } else {
        &[]
    }
}

/// How many operands there are.
#[tactic(auto, unfolding(crate::specs::Pieces::operand_count), using(crate::proofs::Cuts::cuts))]
pub fn count_operands(text: &[u8]) -> usize
    ensures { result ≡ operand_count text.now }
{
    if trim(text).is_empty() {
        0
    } else {
        text.iter().filter(|byte| **byte == b',').count() + 1
    }
}

/// The operand with this number, counted from 0; an empty text if there is none.
#[tactic(auto, unfolding(crate::specs::Pieces::operand_at), using(crate::proofs::Cuts::cuts))]
pub fn operand(text: &[u8], index: usize) -> &[u8]
    ensures { result.now ≡ operand_at text.now index }
{
    let mut rest = text;
    for skipped in 0..index {
        rest = after_comma(rest);
    }
    trim(&rest[..find_byte(rest, b',')])
}
