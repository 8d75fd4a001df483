//! The fields of a file: little-endian numbers at offsets.

ghost use Rattle.std.specs.Prelude.{◌≡◌, ◌+◌, ◌≤◌, length};
ghost use Rattle.elf_view.specs.Fields.{half, word};

use byteorder::{ByteOrder, LittleEndian};

/// The number of two bytes.
#[tactic(auto, unfolding(crate::specs::Fields::half))]
pub(crate) fn half(file: &[u8], at: usize) -> u16
    requires { at + 2 ≤ length file.now }
    ensures { result ≡ half file.now at }
{
    LittleEndian::read_u16(&file[at..])
}

/// The number of four bytes.
#[tactic(auto, unfolding(crate::specs::Fields::word))]
pub(crate) fn word(file: &[u8], at: usize) -> u32
    requires { at + 4 ≤ length file.now }
    ensures { result ≡ word file.now at }
{
    LittleEndian::read_u32(&file[at..])
}
