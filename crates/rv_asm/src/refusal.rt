//! Why a source is refused.

ghost use Rattle.std.specs.Prelude.{◌≡◌};

use rv_text::TextErr;
use std::alloc::AllocError;

/// Why a line is refused.
#[derive(Clone, Copy, PartialEq, Eq)]
pub enum AsmKind {
    /// The text of an instruction, a pseudo-instruction or a directive is refused.
    Text(TextErr),
    /// The first word begins with `.`, and is not a directive.
    UnknownDirective,
    /// An earlier line defines the same label.
    LabelTwice,
    /// A label that is used or exported is never defined.
    NoLabel,
    /// The distance to a label, which the instruction's field cannot hold.
    TooFar(i64),
    /// The source, or the section with the line, is longer than 1,048,576 bytes.
    TooLarge(u64),
    /// A byte of the line is above 127.
    NotAscii,
    /// A string is expected, but the text is not exactly one, has no end, or has an unknown escape.
    BadString,
    /// An instruction is in the data, or at an address that is not a multiple of 4.
    Misplaced,
    /// There was not enough memory.
    NoMemory,
}

/// Why a source is refused, with the line number, counted from 1. It is 0 if the source as a whole is refused.
#[derive(Clone, Copy, PartialEq, Eq)]
pub struct AsmErr {
    pub line: u32,
    pub kind: AsmKind,
}

impl From<TextErr> for AsmKind {
    ghost use Rattle.std.specs.Prelude.{◌≡◌};
    ghost use Rattle.rv_asm.specs.declared.refusal.AsmKind.{AsmKind};

    ghost from_gives = { λ e kind. kind ≡ AsmKind.Text e };

    fn from(e: TextErr) -> AsmKind {
        AsmKind::Text(e)
    }
}

impl From<AllocError> for AsmKind {
    ghost use Rattle.std.specs.Prelude.{◌≡◌};
    ghost use Rattle.rv_asm.specs.declared.refusal.AsmKind.{AsmKind};

    ghost from_gives = { λ _ kind. kind ≡ AsmKind.NoMemory };

    fn from(_e: AllocError) -> AsmKind {
        AsmKind::NoMemory
    }
}
