//! Numbers as bytes, the low byte first.

ghost use Rattle.std.specs.Prelude.{◌≡◌, ◌⊎◌, length};
ghost use Rattle.mem_regions.specs.Access.{IsWidth};
ghost use Rattle.mem_regions.specs.Bytes.{le_number, le_bytes};

/// The number of 4 bytes. Copying them at once compiles to one load; a sum would need four.
#[inline(always)]
#[tactic(auto, using(crate::proofs::Words::words))]
pub(crate) fn word_of(bytes: &[u8]) -> u32
    requires { length bytes.now ≡ 4 }
    ensures { result ≡ le_number bytes.now }
{
    let mut word = [0; 4];
    word.copy_from_slice(&bytes[..4]);
    u32::from_le_bytes(word)
}

/// The number of 1, 2 or 4 bytes.
#[inline(always)]
pub(crate) fn number_of(bytes: &[u8]) -> u32
    requires { IsWidth (length bytes.now) }
    ensures { result ≡ le_number bytes.now }
{
    match bytes {
        [a] => u32::from(*a),
        [a, b] => u32::from(*a) + 256 * u32::from(*b),
        _ => word_of(bytes),
    }
}

/// The four bytes of a number.
#[inline(always)]
pub(crate) fn bytes_of(number: u32) -> [u8; 4]
    ensures { result ≡ le_bytes 4 number }
{
    let second = number / 256;
    let third = second / 256;
    let fourth = third / 256;
    [
        (number % 256) as u8,
        (second % 256) as u8,
        (third % 256) as u8,
        (fourth % 256) as u8,
    ]
}
