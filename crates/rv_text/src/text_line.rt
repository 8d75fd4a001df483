//! The buffer that an instruction's text is written into.
#![tactic(auto)]

ghost use Rattle.std.specs.Prelude.{◌≡◌, ◌+◌, ◌<◌, ◌≤◌, ◌++◌, [], length};

use crate::operands::Operand;
use arrayvec::ArrayVec;
use std::marker::Model;

/// A buffer of 80 bytes, enough for the text of every instruction.
#[derive(Drop)]
pub struct TextLine {
    letters: ArrayVec<u8, 80>,
}

impl Model for TextLine {
    ghost use Rattle.std.specs.Prelude.{ℕ, List};

    ghost Value = { List ℕ };

    ghost view = { λ line. line.letters.items };
}

fn push_all(letters: &mut ArrayVec<u8, 80>, text: &[u8])
    requires { length letters.old.items + length text.now ≤ 80 }
    ensures { letters.new.items ≡ letters.old.items ++ text.now }
{
    for byte in text {
        letters.push(*byte);
    }
}

impl TextLine {
    /// An empty line.
    pub fn new() -> TextLine
        ensures { result ≡ [] }
    {
        TextLine {
            letters: ArrayVec::new(),
        }
    }

    /// The bytes in the line.
    pub fn bytes(&self) -> &[u8]
        ensures { result.now ≡ self.now }
    {
        self.letters.as_slice()
    }

    /// Replaces the contents of the line by these bytes.
    pub fn set(&mut self, text: &[u8])
        requires { length text.now ≤ 80 }
        ensures { self.new ≡ text.now }
    {
        self.clear();
        self.put(text);
    }

    /// Empties the line.
    pub(crate) fn clear(&mut self)
        ensures { self.new ≡ [] }
    {
        self.letters.clear();
    }

    /// Appends bytes; there must be room for them.
    pub(crate) fn put(&mut self, text: &[u8])
        requires { length self.old + length text.now ≤ 80 }
        ensures { self.new ≡ self.old ++ text.now }
    {
        push_all(&mut self.letters, text);
    }
}
