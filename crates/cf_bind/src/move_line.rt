//! A buffer for the text of one move.

ghost use Rattle.std.specs.Prelude.{◌≡◌, ◌+◌, ◌<◌, ◌≤◌, ◌++◌, [], length, decimal};
ghost use Rattle.texts.specs.Hexadecimal.{hex8};

use arrayvec::ArrayVec;
use itoa::Buffer;
use std::marker::Model;
use texts::hex8;

/// A buffer of 32 bytes for the line of a move, without its line feed. Every move's text fits.
#[derive(Drop)]
pub struct MoveLine {
    text: ArrayVec<u8, 32>,
}

impl Model for MoveLine {
    ghost use Rattle.std.specs.Prelude.{ℕ, List};

    ghost Value = { List ℕ };

    ghost view = { λ line. line.text.items };
}

impl MoveLine {
    /// An empty line.
    pub fn new() -> MoveLine
        ensures { result ≡ [] }
    {
        MoveLine {
            text: ArrayVec::new(),
        }
    }

    /// The line's bytes.
    pub fn bytes(&self) -> &[u8]
        ensures { result.now ≡ self.now }
    {
        self.text.as_slice()
    }

    /// Makes the line hold this text and nothing else.
    pub(crate) fn set(&mut self, text: &[u8])
        requires { length text.now ≤ 32 }
        ensures { self.new ≡ text.now }
    {
        self.text = ArrayVec::new();
        self.push(text);
    }

    pub(crate) fn push(&mut self, text: &[u8])
        requires { length self.old + length text.now ≤ 32 }
        ensures { self.new ≡ self.old ++ text.now }
    {
        for byte in text {
            self.text.push(*byte);
        }
    }

    pub(crate) fn push_decimal(&mut self, number: u32)
        requires { length self.old + 10 ≤ 32 }
        ensures text { self.new ≡ self.old ++ decimal number }
        ensures size { length self.new ≤ length self.old + 10 }
    {
        let mut buffer = Buffer::new();
        self.push(buffer.format(number).as_bytes());
    }

    /// A word as eight hexadecimal digits.
    pub(crate) fn push_hex(&mut self, word: u32)
        requires { length self.old + 8 ≤ 32 }
        ensures { self.new ≡ self.old ++ hex8 word }
    {
        self.push(&hex8(word));
    }
}
