//! Words as sets of small numbers: bit k for number k.

ghost use Rattle.std.specs.Prelude.{◌≡◌, ℕ, ◌-◌, ◌<◌, ◌≤◌, ◌&&◌, ◌||◌, nat_eq, IfSome, None, Some, filter, length, nat_lt, slice_get};
ghost use Rattle.cf_layout.specs.Words.{has_bit};
ghost use Rattle.cf_index.specs.Left.{IsLowest};
ghost use Rattle.cf_index.specs.Most.{most_of_kind};
ghost use Rattle.cf_index.specs.Places.{set_places};

/// How many numbers the word has.
#[inline(always)]
#[tactic(auto, using(crate::proofs::Places::count_places, crate::proofs::Places::most_places))]
pub(crate) fn count(word: u64) -> usize
    ensures numbers { result ≡ length (set_places 64 word) }
    ensures most { result ≤ most_of_kind }
{
    word.count_ones() as usize
}

/// How many of its numbers are below k.
#[inline(always)]
#[tactic(auto, using(crate::proofs::Places::mask_some, crate::proofs::Places::counts_below, crate::proofs::Places::counts_all_below, crate::proofs::Places::most_below))]
pub(crate) fn count_below(word: u64, k: usize) -> usize
    ensures numbers { result ≡ length (filter (λ j. nat_lt j k) (set_places 64 word)) }
    ensures most { result ≤ most_of_kind }
{
    if k < 64 {
        (word & ((1 << k) - 1)).count_ones() as usize
    } else {
        word.count_ones() as usize
    }
}

/// The lowest of its numbers, if it has one.
#[inline(always)]
#[tactic(auto, using(crate::proofs::FirstsAfter::lowest_place, crate::proofs::FirstsAfter::no_place))]
pub(crate) fn lowest(word: u32) -> Option<u32>
    ensures number { result ≡ slice_get (set_places 64 word) 0 }
    ensures within { IfSome result (λ k. k < 64) }
{
    let wide = word as u64;
    if wide == 0 {
        None
    } else {
        Some(wide.trailing_zeros())
    }
}

/// The lowest stage of the word, which has bit i - 1 for stage i.
#[inline(always)]
pub fn lowest_stage(word: u32) -> Option<u32>
    ensures lowest { IfSome result (IsLowest word) }
    ensures first { IfSome result (λ i. Some (i - 1) ≡ slice_get (set_places 64 word) 0) }
    ensures gone { result ≡ None → None ≡ slice_get (set_places 64 word) 0 }
{
    match lowest(word) {
        Some(k) => Some(k + 1),
        None => None,
    }
}

/// The i-th of its numbers, counted from 0.
#[inline(always)]
pub(crate) fn nth(word: u64, i: usize) -> u32
    requires { i < length (set_places 64 word) }
    ensures number { Some result ≡ slice_get (set_places 64 word) i }
    ensures within { result < 64 }
{
    let mut rest = word;
    let mut left = i;
    while left > 0 {
        rest &= rest - 1;
        // This is never so. Without the test the loop, which has few turns, would be unrolled.
        if rest == 0 {
            return 0;
        }
        left -= 1;
    }
    rest.trailing_zeros()
}

/// The word, with the number k added if it is to be set.
#[inline(always)]
#[tactic(auto, using(crate::proofs::Setting::with_bit_64))]
pub(crate) fn with_bit(word: u64, k: u32, set: bool) -> u64
    requires { k < 64 }
    ensures { (i : ℕ) → has_bit result i ≡ ((nat_eq i k && set) || has_bit word i) }
{
    word | (set as u64) << k
}
