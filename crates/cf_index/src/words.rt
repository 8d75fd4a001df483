//! The moves over the stages, by shifts and logic from the words of a processor.

ghost use Rattle.std.specs.Prelude.{◌≡◌, ℕ, ◌+◌, ◌-◌, ◌<◌, ◌≤◌, ◌&&◌, ◌||◌, not, nat_eq, nat_lt};
ghost use Rattle.cf_layout.specs.Words.{has_bit};
ghost use Rattle.cf_index.specs.Left.{IsLowest};
ghost use Rattle.cf_index.specs.Words.{climb_bit, fall_bit, full_bit, send_bit};

use cf_core::Masks;

/// The bits of the first word that the second does not have.
#[inline(always)]
#[tactic(auto, using(crate::proofs::WordBits::without_other))]
fn without(word: u32, other: u32) -> u32
    ensures { (k : ℕ) → has_bit result k ≡ (has_bit word k && not (has_bit other k)) }
{
    word & !other
}

/// The bits that both words have.
#[inline(always)]
#[tactic(auto, using(crate::proofs::WordBits::of_both))]
fn common(word: u32, other: u32) -> u32
    ensures { (k : ℕ) → has_bit result k ≡ (has_bit word k && has_bit other k) }
{
    word & other
}

/// The bits that either word has.
#[inline(always)]
#[tactic(auto, using(crate::proofs::WordBits::of_either))]
fn either(word: u32, other: u32) -> u32
    ensures { (k : ℕ) → has_bit result k ≡ (has_bit word k || has_bit other k) }
{
    word | other
}

/// The word shifted so that the bit of each stage is that of the stage above.
#[inline(always)]
#[tactic(auto, using(crate::proofs::WordBits::of_next))]
fn above(word: u32) -> u32
    ensures { (k : ℕ) → has_bit result k ≡ has_bit word (k + 1) }
{
    word >> 1
}

/// The word shifted so that the bit of each stage is that of the stage below.
#[inline(always)]
#[tactic(auto, using(crate::proofs::WordBits::of_last))]
fn below(word: u32) -> u32
    ensures { (k : ℕ) → has_bit result k ≡ (nat_lt k 32 && (nat_lt 0 k && has_bit word (k - 1))) }
{
    word << 1
}

/// The `count` lowest stages.
#[inline(always)]
#[tactic(auto, using(crate::proofs::WordBits::of_lowest))]
fn lowest(count: u32) -> u32
    requires { count ≤ 32 }
    ensures { (k : ℕ) → has_bit result k ≡ nat_lt k count }
{
    ((1_u64 << count) - 1) as u32
}

/// The stages with an instruction and a result that have not met.
#[inline(always)]
pub(crate) fn full(masks: &Masks) -> u32
    ensures { (k : ℕ) → has_bit result k ≡ full_bit masks.now k }
{
    without(common(masks.passengers, masks.packets), masks.met)
}

/// The stages where the instruction can climb, among this many stages.
#[inline(always)]
pub(crate) fn climbing(masks: &Masks, stages: u32) -> u32
    requires some { 1 ≤ stages }
    requires few { stages ≤ 32 }
    ensures { (k : ℕ) → has_bit result k ≡ climb_bit masks.now stages k }
{
    let met = without(masks.passengers, full(masks));
    let done = without(without(met, masks.owes), masks.stops);
    let clear = without(done, above(masks.passengers));
    common(clear, lowest(stages - 1))
}

/// The stages with a result and without an instruction that it has not met.
#[inline(always)]
pub(crate) fn resting(masks: &Masks) -> u32
    ensures { (k : ℕ) → has_bit result k ≡ (has_bit masks.now.packets k && not (full_bit masks.now k)) }
{
    without(masks.packets, full(masks))
}

/// The stages below one with a result from which an operation can be launched.
#[inline(always)]
pub(crate) fn below_results(masks: &Masks) -> u32
    ensures { (k : ℕ) → has_bit result k ≡ (has_bit masks.now.launch k && has_bit masks.now.packets (k + 1)) }
{
    common(masks.launch, above(masks.packets))
}

/// The stages where the result can fall.
#[inline(always)]
pub(crate) fn falling(masks: &Masks) -> u32
    ensures { (k : ℕ) → has_bit result k ≡ fall_bit masks.now k }
{
    let clear = without(resting(masks), below(masks.packets));
    without(clear, lowest(1))
}

/// The stages where the instruction can send the result that it owes.
#[inline(always)]
pub(crate) fn sending(masks: &Masks) -> u32
    ensures { (k : ℕ) → has_bit result k ≡ send_bit masks.now k }
{
    without(masks.owes, masks.packets)
}

/// The stages of the word above the one of this number.
// Without a branch of its own, since the compiler would join it with that of the search for each kind of move.
#[inline(always)]
#[tactic(auto, using(crate::proofs::WordBits::beyond_word))]
pub(crate) fn past(word: u32, i: u32) -> u32
    ensures { (k : ℕ) → has_bit result k ≡ (has_bit word k && not (nat_lt k i)) }
{
    without(word, lowest(i.min(32)))
}

/// The word without its lowest stage.
// The lowest stage is where the subtraction borrows, so it is not searched for.
#[inline(always)]
#[tactic(auto, using(crate::proofs::LowestBits::no_lowest))]
pub(crate) fn without_lowest(word: u32) -> u32
    ensures { (i k : ℕ) → IsLowest word i → has_bit result k ≡ (has_bit word k && not (nat_lt k i)) }
{
    word & word.wrapping_sub(1)
}

/// The word without its lowest stage, and with the stage above that one if the other word has it.
#[inline(always)]
pub(crate) fn with_next(word: u32, other: u32) -> u32
    ensures { (i k : ℕ) → IsLowest word i → has_bit result k ≡ ((has_bit word k && not (nat_lt k i)) || (nat_eq k i && has_bit other k)) }
{
    let rest = without_lowest(word);
    either(rest, common(below(without(word, rest)), other))
}
