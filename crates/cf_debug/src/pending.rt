//! The unfinished line.

ghost use Rattle.std.specs.Prelude.{◌≡◌, ◌∷◌, ◌++◌, [], take};
ghost use Rattle.rv_text.specs.Lines.{without_return};

use arrayvec::ArrayVec;
use std::marker::Model;

/// The first 258 bytes of an unfinished line: enough to show whether it is too long, with a carriage return counted.
#[derive(Drop)]
pub(crate) struct PendingLine {
    bytes: ArrayVec<u8, 258>,
}

impl Model for PendingLine {
    ghost use Rattle.std.specs.Prelude.{ℕ, List};

    ghost Value = { List ℕ };

    ghost view = { λ line. line.bytes.items };
}

impl PendingLine {
    /// An empty line.
    pub(crate) fn new() -> PendingLine
        ensures { result ≡ [] }
    {
        PendingLine {
            bytes: ArrayVec::new(),
        }
    }

    /// Appends a byte.
    pub(crate) fn push(&mut self, byte: u8)
        ensures { self.new ≡ take 258 (self.old ++ byte ∷ []) }
    {
        if !self.bytes.is_full() {
            self.bytes.push(byte);
        }
    }

    /// Empties the line.
    pub(crate) fn clear(&mut self)
        ensures { self.new ≡ [] }
    {
        self.bytes.clear();
    }

    /// The bytes of the line.
    pub(crate) fn bytes(&self) -> &[u8]
        ensures { result.now ≡ self.now }
    {
        self.bytes.as_slice()
    }

    /// The finished line, if a line feed comes now: without a carriage return at its end.
    #[tactic(auto, unfolding(rv_text::specs::Lines::without_return))]
    pub(crate) fn whole(&self) -> &[u8]
        ensures { result.now ≡ without_return self.now }
    {
        let line = self.bytes.as_slice();
        match line.strip_suffix(b"\r") {
            Some(front) => front,
            None => line,
        }
    }
}
