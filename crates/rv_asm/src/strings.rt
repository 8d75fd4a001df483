//! Reading strings.
#![tactic(auto, unfolding(crate::specs::Strings::string_of))]

ghost use Rattle.std.specs.Prelude.{◌≡◌, ◌≤◌, ◌<◌, true, false, [], Some, None, ◌++◌, IfSome, IsSome, IfOk, OnOk, MatchOption, length, unwrap_or, if◌then◌else◌};
ghost use Rattle.std.specs.Option.{option_map};
ghost use Rattle.rv_asm.specs.Strings.{escapes, onto, end_of_string, string_from, string_of};

use std::alloc::AllocError;

#[tactic(auto)]
fn escape(byte: u8) -> Option<u8>
    ensures { result ≡ escapes byte }
{
    match byte {
        b'n' => Some(b'\n'),
        b't' => Some(b'\t'),
        b'\\' => Some(b'\\'),
        b'"' => Some(b'"'),
        b'0' => Some(0),
        _ => None,
    }
}

/// The byte that the start of a text denotes after a `\` in a string, and the text after it.
#[tactic(auto)]
fn cut_escaped(text: &[u8]) -> Option<(u8, &[u8])>
    ensures cut { MatchOption result (string_from true text.now ≡ None)
        (λ cut. string_from true text.now ≡ onto (Some cut.0) (string_from false cut.1.now)) }
    ensures shorter { IfSome result (λ cut. length cut.1.now < length text.now) }
{
    match text {
        [byte, after @ ..] => Some((escape(*byte)?, after)),
        [] => None,
    }
}

/// The byte of an open string that the start of a text denotes, and the text after it; or `None` if the text does not
/// begin with a byte of the string.
#[tactic(auto, using(crate::proofs::Chars::quote_alone))]
fn cut_char(text: &[u8]) -> Option<(u8, &[u8])>
    ensures cut { MatchOption result (string_from false text.now ≡ end_of_string text.now)
        (λ cut. string_from false text.now ≡ onto (Some cut.0) (string_from false cut.1.now)) }
    ensures shorter { IfSome result (λ cut. length cut.1.now < length text.now) }
{
    match text {
        [byte, after @ ..] => match *byte {
            b'"' => None,
            b'\\' => cut_escaped(after),
            plain => Some((plain, after)),
        },
        [] => None,
    }
}

/// The length of the string that is open at the start of a text and closed at its end.
#[tactic(auto, using(crate::proofs::Chars::counts))]
fn open_string_len(text: &[u8]) -> Option<usize>
    ensures length { result ≡ option_map (λ bytes. length bytes) (string_from false text.now) }
    ensures within { IfSome result (λ count. count ≤ length text.now) }
{
    let mut count = 0;
    let mut rest = text;
    while let Some((_, after)) = cut_char(rest) {
        count += 1;
        rest = after;
    }
    (rest == b"\"".as_slice()).then_some(count)
}

/// The length of the string that the text consists of, or `None` if the text is not a string.
pub fn string_len(text: &[u8]) -> Option<usize>
    ensures length { result ≡ option_map (λ bytes. length bytes) (string_of text.now) }
    ensures within { IfSome result (λ count. count ≤ length text.now) }
{
    open_string_len(text.strip_prefix(b"\"")?)
}

/// Appends the bytes of the string that is open at the start of a text, and returns whether the string is closed at the
/// text's end and has no unknown escapes.
#[tactic(auto, using(crate::proofs::Chars::chars))]
fn push_open_string(bytes: &mut Vec<u8>, text: &[u8]) -> Result<bool, AllocError>
    ensures { IfOk result (λ whole. option_map (λ string. bytes.old.items ++ string) (string_from false text.now)
        ≡ (if whole then Some bytes.new.items else None)) }
{
    let mut rest = text;
    while let Some((byte, after)) = cut_char(rest) {
        bytes.push(byte)?;
        rest = after;
    }
    Ok(rest == b"\"".as_slice())
}

/// Appends the bytes of the string that the text consists of.
pub fn push_string(bytes: &mut Vec<u8>, text: &[u8]) -> Result<(), AllocError>
    requires { IsSome (string_of text.now) }
    ensures { OnOk result (bytes.new.items ≡ bytes.old.items ++ unwrap_or (string_of text.now) []) }
{
    if let Some(open) = text.strip_prefix(b"\"") {
        push_open_string(bytes, open)?;
    }
    Ok(())
}
