//! The parts of a line: a label, a statement, and a comment.
#![tactic(auto, unfolding(crate::specs::Scanning::is_name_start, crate::specs::Scanning::is_name_byte))]

ghost use Rattle.std.specs.Prelude.{◌≡◌, ◌≤◌, length, Some, None, IfSome};
ghost use Rattle.std.specs.Str.{IsUtf8};
ghost use Rattle.std.specs.Option.{option_copied, option_map};
ghost use Rattle.rv_asm.specs.Scanning.{is_name_start, is_name_byte, begins_name, is_name, name_length, quote_after, is_outside, comment_at, said, has_label, label_in, statement_in};

use rv_text::trim;

/// Whether a string is open.
#[derive(Clone, Copy)]
pub enum Quote {
    Outside,
    Inside,
    /// After a `\` in a string.
    Escaped,
}

fn is_name_start(byte: u8) -> bool
    ensures { result ≡ is_name_start byte }
{
    matches!(byte, b'A'..=b'Z' | b'a'..=b'z' | b'_' | b'.' | b'$')
}

#[tactic(auto, unfolding(crate::specs::Scanning::is_name_byte))]
fn is_name_byte(byte: u8) -> bool
    ensures { result ≡ is_name_byte byte }
{
    is_name_start(byte) || byte.is_ascii_digit()
}

/// Whether the text begins like a name.
#[tactic(auto)]
pub fn begins_name(text: &[u8]) -> bool
    ensures { result ≡ begins_name text.now }
{
    match text {
        [first, ..] => is_name_start(*first),
        [] => false,
    }
}

/// Whether the whole text is a name.
#[tactic(auto, unfolding(crate::specs::Scanning::is_name))]
pub fn is_name(text: &[u8]) -> bool
    ensures { result ≡ is_name text.now }
{
    begins_name(text) && name_length(text) == text.len()
}

#[tactic(auto)]
fn name_length(text: &[u8]) -> usize
    ensures length { result ≡ name_length text.now }
    ensures within { result ≤ length text.now }
{
    let mut end = 0;
    while end < text.len() && is_name_byte(text[end]) {
        end += 1;
    }
    end
}

#[tactic(auto, unfolding(crate::specs::Scanning::quote_after))]
fn quote_after(quote: Quote, byte: u8) -> Quote
    ensures { result ≡ quote_after quote byte }
{
    match (quote, byte) {
        (Quote::Outside, b'"') => Quote::Inside,
        (Quote::Outside, _) => Quote::Outside,
        (Quote::Inside, b'"') => Quote::Outside,
        (Quote::Inside, b'\\') => Quote::Escaped,
        (Quote::Inside, _) => Quote::Inside,
        (Quote::Escaped, _) => Quote::Inside,
    }
}

#[tactic(auto)]
fn is_outside(quote: Quote) -> bool
    ensures { result ≡ is_outside quote }
{
    match quote {
        Quote::Outside => true,
        Quote::Inside => false,
        Quote::Escaped => false,
    }
}

#[tactic(auto)]
fn comment_at(line: &[u8]) -> usize
    ensures index { result ≡ comment_at Quote.Outside line.now }
    ensures within { result ≤ length line.now }
{
    let mut quote = Quote::Outside;
    for (index, byte) in line.iter().enumerate() {
        if is_outside(quote) && *byte == b'#' {
            return index;
        }
        quote = quote_after(quote, *byte);
    }
    line.len()
}

/// The text of a line before its comment, without surrounding blanks.
#[tactic(auto, unfolding(crate::specs::Scanning::said), using(crate::proofs::Shorter::parts))]
pub fn said(line: &[u8]) -> &[u8]
    ensures text { result.now ≡ said line.now }
    ensures within { length result.now ≤ length line.now }
{
    trim(&line[..comment_at(line)])
}

#[tactic(auto, unfolding(crate::specs::Scanning::has_label))]
fn has_label(text: &[u8]) -> bool
    ensures { result ≡ has_label text.now }
{
    begins_name(text) && text[name_length(text)..].starts_with(b":")
}

/// The label that a text begins with.
#[tactic(auto, unfolding(crate::specs::Scanning::label_in), using(crate::proofs::Names::names))]
pub fn label_in(text: &[u8]) -> Option<&[u8]>
    ensures label { option_map (λ name. name.now) result ≡ label_in text.now }
    ensures utf8 { IfSome result (λ name. IsUtf8 name.now) }
{
    if has_label(text) {
        Some(&text[..name_length(text)])
    } else {
        None
    }
}

/// The statement of a text: what follows its label, or the whole text if it has no label.
#[tactic(auto, unfolding(crate::specs::Scanning::statement_in, crate::specs::Scanning::has_label))]
pub fn statement_in(text: &[u8]) -> &[u8]
    ensures statement { result.now ≡ statement_in text.now }
    ensures within { length result.now ≤ length text.now }
{
    if has_label(text) {
        &text[name_length(text) + 1..]
    } else {
        text
    }
}
