//! Single bits of 32-bit words.

ghost use Rattle.std.specs.Prelude.{◌≡◌, ◌<◌, ◌^◌, ◌||◌, nat_eq, ℕ};
ghost use Rattle.cf_layout.specs.Words.{has_bit};

/// Whether the word has the bit.
#[inline(always)]
#[tactic(auto, unfolding(crate::specs::Words::has_bit))]
pub(crate) fn has_bit(word: u32, bit: u32) -> bool
    requires { bit < 32 }
    ensures { result ≡ has_bit word bit }
{
    word >> bit & 1 == 1
}

/// The word with the bit.
#[tactic(auto, using(crate::proofs::Words::set_bit, crate::proofs::Words::set_small))]
pub(crate) fn with_bit(word: u32, bit: u32) -> u32
    requires { bit < 32 }
    ensures bits { (i : ℕ) → has_bit result i ≡ (nat_eq i bit || has_bit word i) }
    ensures small { (n : ℕ) → bit < n → word < 2 ^ n → result < 2 ^ n }
{
    word | 1 << bit
}
