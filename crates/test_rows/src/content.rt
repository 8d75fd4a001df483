//! The lines that give bytes.

use crate::call::{NamedBytes, find};
use crate::line_err::LineErr;
use rv_text::numeral;
use std::alloc::Global;
use std::str;

/// The registers before the first instruction: each takes 13 bytes.
const START: &str = "x00=00000000 x01=00000000 x02=7f0ffff0 x03=00000000
x04=00000000 x05=00000000 x06=00000000 x07=00000000
x08=00000000 x09=00000000 x10=00000000 x11=00000000
x12=00000000 x13=00000000 x14=00000000 x15=00000000
x16=00000000 x17=00000000 x18=00000000 x19=00000000
x20=00000000 x21=00000000 x22=00000000 x23=00000000
x24=00000000 x25=00000000 x26=00000000 x27=00000000
x28=00000000 x29=00000000 x30=00000000 x31=00000000
";

/// The first word of a line, and the text after the space that follows it.
pub(crate) fn split(line: &str) -> (&str, &str) {
    match line.split_once(' ') {
        Some((word, rest)) => (word, rest),
        None => (line, ""),
    }
}

/// The number that a word spells in decimal digits.
pub(crate) fn number(word: &str) -> Result<usize, LineErr> {
    match word.parse::<usize>() {
        Ok(number) => Ok(number),
        Err(_) => Err(LineErr::Unknown),
    }
}

/// The number that a word spells in up to eight hexadecimal digits.
fn hexadecimal(word: &str) -> Result<u32, LineErr> {
    match numeral(word.as_bytes(), 16, 8) {
        Some(number) => Ok(number as u32),
        None => Err(LineErr::Unknown),
    }
}

/// Overwrites bytes with others.
fn overwrite(content: &mut Vec<u8>, at: usize, bytes: &[u8]) -> Result<(), LineErr> {
    if content.len().saturating_sub(at) < bytes.len() {
        return Err(LineErr::Unknown);
    }
    for (index, byte) in bytes.iter().enumerate() {
        if let Some(place) = content.as_mut_slice().get_mut(at.wrapping_add(index)) {
            *place = *byte;
        }
    }
    Ok(())
}

/// Adds the first `size` bytes of each word of 32 bits, whose low byte comes first.
fn add_code(content: &mut Vec<u8>, words: &str, size: usize) -> Result<(), LineErr> {
    for word in words.split_whitespace() {
        let bytes = hexadecimal(word)?.to_le_bytes();
        content.extend_from_slice(&bytes[..size.min(4)])?;
    }
    Ok(())
}

/// Adds one byte a number of times.
fn repeat(content: &mut Vec<u8>, words: &str) -> Result<(), LineErr> {
    let (count, byte) = split(words);
    let byte = (hexadecimal(byte)? & 0xff) as u8;
    let size = content.len().saturating_add(number(count)?);
    content.resize(size, byte)?;
    Ok(())
}

/// Overwrites four bytes with a 32-bit word.
fn put(content: &mut Vec<u8>, words: &str) -> Result<(), LineErr> {
    let (at, word) = split(words);
    overwrite(content, number(at)?, &hexadecimal(word)?.to_le_bytes())
}

/// Writes one register, as `x10=00000007`, into the lines of the registers at `start`.
fn write_register(content: &mut Vec<u8>, start: usize, word: &str) -> Result<(), LineErr> {
    let Some((register, value)) = word.split_once('=') else {
        return Err(LineErr::Unknown);
    };
    let Some(register) = register.strip_prefix("x") else {
        return Err(LineErr::Unknown);
    };
    let place = number(register)?.min(31) * 13 + 4;
    let _value = hexadecimal(value)?;
    overwrite(content, start.saturating_add(place), value.as_bytes())
}

/// Adds the lines of the registers, with some values changed from the start.
fn add_registers(content: &mut Vec<u8>, words: &str) -> Result<(), LineErr> {
    let start = content.len();
    content.extend_from_slice(START.as_bytes())?;
    for word in words.split_whitespace() {
        write_register(content, start, word)?;
    }
    Ok(())
}

/// Adds the bytes that are stored under a name.
fn copy(content: &mut Vec<u8>, kept: &[NamedBytes], name: &str) -> Result<(), LineErr> {
    match find(kept, name) {
        Some(bytes) => Ok(content.extend_from_slice(bytes)?),
        None => Err(LineErr::Unknown),
    }
}

/// The bytes, with the first occurrence of `old` replaced by `new`.
fn replaced(alloc: Global, bytes: &[u8], old: &str, new: &str) -> Result<Vec<u8>, LineErr> {
    let text = str::from_utf8(bytes).unwrap_or("");
    if !text.contains(old) {
        return Err(LineErr::Unknown);
    }
    Ok(text.replacen(alloc, old, new, 1)?.into_bytes())
}

/// Replaces the first occurrence of `old` by `new`. Both have `\
/// ` for line feeds.
fn replace(content: &mut Vec<u8>, old: &str, new: &str) -> Result<(), LineErr> {
    let alloc = *content.allocator();
    let old = old.replace(alloc, "\\n", "\n")?;
    let new = new.replace(alloc, "\\n", "\n")?;
    *content = replaced(alloc, content.as_slice(), old.as_str(), new.as_str())?;
    Ok(())
}

/// As `swap OLD => NEW`.
fn swap(content: &mut Vec<u8>, words: &str) -> Result<(), LineErr> {
    match words.split_once(" => ") {
        Some((old, new)) => replace(content, old, new),
        None => Err(LineErr::Unknown),
    }
}

/// Adds a text.
fn add_text(content: &mut Vec<u8>, text: &str) -> Result<(), LineErr> {
    content.extend_from_slice(text.as_bytes())?;
    Ok(())
}

/// Adds a line of text with its line feed.
fn add_line(content: &mut Vec<u8>, text: &str) -> Result<(), LineErr> {
    add_text(content, text)?;
    content.push(b'\n')?;
    Ok(())
}

/// Changes the content as the line says.
pub(crate) fn change(
    content: &mut Vec<u8>,
    kept: &[NamedBytes],
    word: &str,
    rest: &str,
) -> Result<(), LineErr> {
    match word {
        "|" => add_line(content, rest),
        "text" => add_text(content, rest),
        "bytes" => add_code(content, rest, 1),
        "code" => add_code(content, rest, 4),
        "repeat" => repeat(content, rest),
        "put" => put(content, rest),
        "swap" => swap(content, rest),
        "drop" => replace(content, rest, ""),
        "cut" => Ok(content.truncate(number(rest)?)),
        "registers" => add_registers(content, rest),
        "copy" => copy(content, kept, rest),
        _ => Err(LineErr::Unknown),
    }
}
