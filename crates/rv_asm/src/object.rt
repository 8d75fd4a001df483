//! What a source is assembled into.

ghost use Rattle.std.specs.Prelude.{◌≡◌};

use crate::label::Labels;
use std::marker::Model;

/// The bytes of a section.
#[derive(Drop)]
pub struct Bytes {
    list: Vec<u8>,
}

impl Model for Bytes {
    ghost use Rattle.std.specs.Prelude.{ℕ, List};

    ghost Value = { List ℕ };

    ghost view = { λ bytes. bytes.list.items };
}

impl Bytes {
    /// The bytes of a list.
    pub fn new(list: Vec<u8>) -> Bytes
        ensures { result ≡ list.items }
    {
        Bytes { list }
    }

    /// The bytes.
    pub fn as_slice(&self) -> &[u8]
        ensures { result.now ≡ self.now }
    {
        self.list.as_slice()
    }
}

/// A program: the bytes of its text, which starts at 0x10000, and of its data, which starts at 0x200000; its labels in
/// the order of their definition; and its entry point.
#[derive(Drop)]
pub struct Object {
    pub text_bytes: Bytes,
    pub data_bytes: Bytes,
    pub labels: Labels,
    pub entry: u32,
}
