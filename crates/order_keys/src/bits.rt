//! The bits of a byte.

ghost use Rattle.std.specs.Prelude.{◌≡◌, ◌<◌, ◌≤◌};
ghost use Rattle.order_keys.specs.Bits.{bit, half, is_set};

/// A bit of this weight if the answer is yes.
#[inline(always)]
pub(crate) fn bit(weight: u8, yes: bool) -> u8
    ensures number { result ≡ bit weight yes }
    ensures small { result ≤ weight }
{
    if yes { weight } else { 0 }
}

/// Four answers as a number below 16, the first as its lowest bit.
#[inline(always)]
pub(crate) fn half(a: bool, b: bool, c: bool, d: bool) -> u8
    ensures number { result ≡ half a b c d }
    ensures small { result < 16 }
{
    bit(1, a) + bit(2, b) + bit(4, c) + bit(8, d)
}

/// Whether the bit of this weight is set.
#[inline(always)]
pub(crate) fn is_set(weight: u8, bits: u8) -> bool
    requires { 0 < weight }
    ensures { result ≡ is_set weight bits }
{
    bits / weight % 2 == 1
}
