//! The meaning of a statement, before the labels' values are known.

ghost use Rattle.std.specs.Prelude.{◌≡◌, ◌≤◌, ◌<◌, ◌^◌, ◌+◌, length};
ghost use Rattle.rv_asm.specs.Operands.{operand_texts};
ghost use Rattle.rv_asm.specs.Items.{is_code, size_of};
ghost use Rattle.rv_asm.specs.Seen.{item_view, IsSoundStatement};

use crate::operations::Width;
use crate::strings::string_len;
use rv_inst::Instr;
use rv_text::Jump;

/// Two instructions that reach any distance.
#[derive(Clone, Copy)]
pub enum Far {
    /// The address of a label, into the register `rd`.
    Address(u8),
    /// A call, with the return address in x1.
    Call,
}

/// The meaning of a statement.
#[derive(Clone, Copy)]
pub enum SourceItem<'a> {
    Nothing,
    /// What follows goes into the text section if this is set, otherwise into the data.
    Section(bool),
    /// The label of this name is exported.
    Export(&'a [u8]),
    Single(Instr),
    Double(Instr, Instr),
    /// A jump or a branch to a label.
    Near(Jump, &'a [u8]),
    /// The same to any distance, or a label's address.
    Distant(Far, &'a [u8]),
    /// Numbers, which may be labels if they are words.
    Numbers(Width, &'a [u8]),
    /// A string, and whether a zero follows.
    Chars(&'a [u8], bool),
    /// This many zeros.
    Zeros(u32),
}

/// Whether the item places instructions.
pub fn is_code(item: SourceItem<'_>) -> bool
    ensures { result ≡ is_code (item_view item.entry) }
{
    match item {
        SourceItem::Single(_)
        | SourceItem::Double(..)
        | SourceItem::Near(..)
        | SourceItem::Distant(..) => true,
        _ => false,
    }
}

/// The number of pieces between the commas of a text.
#[tactic(auto, using(crate::proofs::Splits::counts))]
fn count_numbers(text: &[u8]) -> usize
    ensures count { result ≡ length (operand_texts text.now) }
    ensures within { result ≤ length text.now + 1 }
{
    text.iter().filter(|byte| **byte == b',').count() + 1
}

/// How many bytes the item places.
pub fn size_of(item: SourceItem<'_>) -> usize
    requires { IsSoundStatement item }
    ensures size { result ≡ size_of (item_view item.entry) }
    ensures bounded { result < 2 ^ 32 }
{
    match item {
        SourceItem::Nothing | SourceItem::Section(_) | SourceItem::Export(_) => 0,
        SourceItem::Single(_) | SourceItem::Near(..) => 4,
        SourceItem::Double(..) | SourceItem::Distant(..) => 8,
        SourceItem::Numbers(width, text) => width.bytes() * count_numbers(text),
        SourceItem::Chars(text, zero) => string_len(text).unwrap_or(0) + usize::from(zero),
        SourceItem::Zeros(count) => count as usize,
    }
}
