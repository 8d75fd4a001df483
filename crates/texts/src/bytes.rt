//! Kinds of bytes.

ghost use Rattle.std.specs.Prelude.{◌≡◌};
ghost use Rattle.texts.specs.Bytes.{is_ascii};

/// Whether every byte of a line is below 128.
#[tactic(auto, unfolding(crate::specs::Bytes::is_ascii))]
pub fn is_ascii(line: &[u8]) -> bool
    ensures { result ≡ is_ascii line.now }
{
    line.iter().all(|byte| *byte < 128)
}
