//! The lines of words.
#![tactic(auto, using(cf_io::proofs::Owing::owing))]

ghost use Rattle.std.specs.Prelude.{◌≡◌, ◌+◌, ◌-◌, ◌%◌, ◌^◌, ◌≤◌, ◌++◌, None, OnOk, OnErr, IfSome, codes, drop, length, map};
ghost use Rattle.cf_io.specs.Causes.{HasCause};
ghost use Rattle.cf_io.specs.Puts.{Writes, WritesFront};
ghost use Rattle.texts.specs.Hexadecimal.{hex8};
ghost use Rattle.elf_view.specs.Symbols.{shown_lazy};
ghost use Rattle.asm_listing.specs.Labels.{Ascend};
ghost use Rattle.asm_listing.specs.Lines.{word_line, label_lines, labelled_lines, skipped, IsFirstWord};

use crate::labels::put_labels;
use crate::putting::put_three;
use cf_io::{Failed, Sink};
use elf_view::LazySymbol;
use rv_inst::decode_m;
use rv_text::{TextLine, write_instr};
use texts::Page;

/// The address and the word of a line.
fn front_page(pc: u32, word: u32) -> Page
    ensures { result ≡ hex8 pc ++ codes " " ++ hex8 word ++ codes " " }
{
    let mut page = Page::new();
    page.push_hex(pc);
    page.push(b" ");
    page.push_hex(word);
    page.push(b" ");
    page
}

/// The word itself, if it is not an instruction.
fn raw_page(word: u32) -> Page
    ensures { result ≡ codes ".word 0x" ++ hex8 word }
{
    let mut page = Page::new();
    page.push(b".word 0x");
    page.push_hex(word);
    page
}

/// Writes the line of a word at an address: both, and the text of the instruction, or otherwise the word. After
/// `Failed` a prefix of the line was written.
#[tactic(auto, unfolding(crate::specs::Lines::word_line, crate::specs::Lines::word_text))]
pub fn put_line<K: Sink>(pc: u32, word: u32, out: &mut K) -> Result<(), Failed>
    ensures ok { OnOk result (Writes (K.written out.old) (K.written out.new) (word_line pc word)) }
    ensures err { OnErr result (WritesFront (K.written out.old) (K.written out.new) (word_line pc word)) }
    ensures cause { HasCause (K.faults out.old) (K.faults out.new) result }
{
    let front = front_page(pc, word);
    match decode_m(word) {
        Some(instr) => {
            let mut line = TextLine::new();
            write_instr(instr, pc, &mut line);
            put_three(out, front.bytes(), line.bytes(), b"\n")
        }
        None => {
            let raw = raw_page(word);
            put_three(out, front.bytes(), raw.bytes(), b"\n")
        }
    }
}

/// Writes the labels at an address and the line of the word there.
fn put_word<K: Sink>(symbols: &[LazySymbol], pc: u32, word: u32, out: &mut K) -> Result<(), Failed>
    requires { Ascend symbols.now }
    ensures ok { OnOk result (Writes (K.written out.old) (K.written out.new)
        (label_lines (map shown_lazy symbols.now) pc ++ word_line pc word)) }
    ensures err { OnErr result (WritesFront (K.written out.old) (K.written out.new)
        (label_lines (map shown_lazy symbols.now) pc ++ word_line pc word)) }
    ensures cause { HasCause (K.faults out.old) (K.faults out.new) result }
{
    put_labels(symbols, pc, out)?;
    put_line(pc, word, out)
}

/// The first address from here on that is a multiple of 4, and the bytes from there on.
fn aligned(pc: u32, bytes: &[u8]) -> (u32, &[u8])
    ensures pc { result.0 ≡ (pc + skipped pc) % 2 ^ 32 }
    ensures bytes { result.1.now ≡ drop (skipped pc) bytes.now }
{
    let skipped = (4 - pc % 4) % 4;
    let rest = bytes.get(skipped as usize..).unwrap_or(&[]);
    (pc.wrapping_add(skipped), rest)
}

/// The first word of bytes, the low byte first, and the bytes after it.
fn first_word(bytes: &[u8]) -> Option<(u32, &[u8])>
    ensures some { IfSome result (λ first. IsFirstWord bytes.now first.0 first.1.now) }
    ensures none { result ≡ None → length bytes.now ≤ 3 }
{
    match bytes {
        [a, b, c, d, after @ ..] => Some((u32::from_le_bytes([*a, *b, *c, *d]), after)),
        _ => None,
    }
}

/// Writes the lines of words from an address on that is a multiple of 4.
#[tactic(auto, using(cf_io::proofs::Owing::owes, crate::proofs::Walked::words))]
fn put_aligned<K: Sink>(
    symbols: &[LazySymbol],
    start: u32,
    bytes: &[u8],
    out: &mut K,
) -> Result<(), Failed>
    requires aligned { start % 4 ≡ 0 }
    requires ascend { Ascend symbols.now }
    ensures ok { OnOk result (Writes (K.written out.old) (K.written out.new) (labelled_lines symbols.now start bytes.now)) }
    ensures err { OnErr result (WritesFront (K.written out.old) (K.written out.new) (labelled_lines symbols.now start bytes.now)) }
    ensures cause { HasCause (K.faults out.old) (K.faults out.new) result }
{
    let mut pc = start;
    let mut rest = bytes;
    while let Some((word, after)) = first_word(rest) {
        put_word(symbols, pc, word, out)?;
        pc = pc.wrapping_add(4);
        rest = after;
    }
    Ok(())
}

/// Writes the lines of bytes from an address on.
#[tactic(auto, using(cf_io::proofs::Owing::owing, crate::proofs::Walked::walked))]
pub fn put_words<K: Sink>(
    symbols: &[LazySymbol],
    start: u32,
    bytes: &[u8],
    out: &mut K,
) -> Result<(), Failed>
    requires { Ascend symbols.now }
    ensures ok { OnOk result (Writes (K.written out.old) (K.written out.new) (labelled_lines symbols.now start bytes.now)) }
    ensures err { OnErr result (WritesFront (K.written out.old) (K.written out.new) (labelled_lines symbols.now start bytes.now)) }
    ensures cause { HasCause (K.faults out.old) (K.faults out.new) result }
{
    let (pc, rest) = aligned(start, bytes);
    put_aligned(symbols, pc, rest, out)
}
