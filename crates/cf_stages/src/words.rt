//! Bit words, with one bit for each stage.

ghost use Rattle.std.specs.Prelude.{◌≡◌, ◌<◌, ◌≤◌, ◌-◌, true, false};
ghost use Rattle.cf_layout.specs.Words.{has_bit as is_bit_set};
ghost use Rattle.cf_stages.specs.Words.{with_bit as with_bit_put};

/// Whether the bit of a stage is set: bit i - 1 for stage i.
#[inline(always)]
#[tactic(auto, unfolding(cf_layout::specs::Words::has_bit))]
pub fn has_bit(word: u32, i: u32) -> bool
    requires above { 0 < i }
    requires within { i ≤ 32 }
    ensures { result ≡ is_bit_set word (i - 1) }
{
    word >> (i - 1) & 1 == 1
}

/// The word with the bit of a stage set, or not set: bit i - 1 for stage i.
#[inline(always)]
#[tactic(auto, using(crate::proofs::Bits::putting), unfolding(crate::specs::Words::with_bit))]
pub fn with_bit(word: u32, i: u32, set: bool) -> u32
    requires above { 0 < i }
    requires within { i ≤ 32 }
    ensures { result ≡ with_bit_put word (i - 1) set }
{
    let bit = 1 << (i - 1);
    if set { word | bit } else { word & !bit }
}

/// The word after what a stage has went to the stage below, which had nothing: bit i - 1 goes to bit i - 2.
// One subtraction moves the bit, since the bit below is not set and nothing is borrowed from further up.
#[inline(always)]
pub(crate) fn lowered(word: u32, i: u32) -> u32
    requires above { 1 < i }
    requires within { i ≤ 32 }
    requires set { is_bit_set word (i - 1) ≡ true }
    requires clear { is_bit_set word (i - 2) ≡ false }
    ensures { result ≡ with_bit_put (with_bit_put word (i - 1) false) (i - 2) true }
{
    word - (1 << (i - 2))
}
