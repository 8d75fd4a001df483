//! The tests that the parts of a program must pass before they are loaded.

ghost use Rattle.std.specs.Prelude.{◌≡◌, ◌<◌, ◌≤◌, IfSome, OnOk, length, position};
ghost use Rattle.mem_regions.specs.Refusal.{end_of, wraps, overlaps, too_many, first_wrapping, too_large, first_overlap, refusal, load_answer};

use crate::Part;

/// Why parts cannot be loaded. A part is named by its index in the list.
#[derive(Clone, Copy, Debug, PartialEq, Eq)]
pub enum LoadErr {
    /// Two parts share an address: the pair with the earliest second part, and then with the earliest first part.
    Overlap(u32, u32),
    /// There are more than 16 parts: their number, capped at the maximum number of 32 bits.
    TooMany(u32),
    /// The parts have this number of bytes in total, over 67,108,864.
    TooLarge(u64),
    /// The first part that ends beyond the last address.
    WrapsAround(u32),
    /// There was not enough memory for the regions.
    NoMemory,
}

const MOST_PARTS: usize = 16;

const MOST_BYTES: u64 = 67_108_864;

const ADDRESSES: u64 = 4_294_967_296;

impl Part {
    /// The first address after the part, which may be 2^32 or more.
    fn end(&self) -> u64
        ensures { result ≡ end_of self.now }
    {
        u64::from(self.base) + u64::from(self.size)
    }

    /// Whether the part ends beyond the last address.
    fn wraps(&self) -> bool
        ensures { result ≡ wraps self.now }
    {
        self.end() > ADDRESSES
    }

    /// Whether the two parts share an address.
    fn overlaps(&self, other: &Part) -> bool
        ensures { result ≡ overlaps self.now other.now }
    {
        u64::from(self.base.max(other.base)) < self.end().min(other.end())
    }
}

#[tactic(auto, unfolding(crate::specs::Refusal::too_many))]
fn check_count(parts: &[Part]) -> Result<(), LoadErr>
    ensures answer { result ≡ load_answer (too_many parts.now) }
    ensures few { OnOk result (length parts.now ≤ 16) }
{
    if parts.len() > MOST_PARTS {
        let count = u32::try_from(parts.len()).unwrap_or(u32::MAX);
        return Err(LoadErr::TooMany(count));
    }
    Ok(())
}

/// The first part that ends beyond the last address.
fn first_to_wrap(parts: &[Part]) -> Option<usize>
    ensures index { result ≡ position wraps parts.now }
    ensures within { IfSome result (λ i. i < length parts.now) }
{
    parts.iter().position(|part| part.wraps())
}

/// The first of the parts that shares an address with the other.
fn first_to_overlap(parts: &[Part], other: &Part) -> Option<usize>
    ensures index { result ≡ position (λ p. overlaps p other.now) parts.now }
    ensures within { IfSome result (λ i. i < length parts.now) }
{
    parts.iter().position(|part| part.overlaps(other))
}

#[tactic(auto, unfolding(crate::specs::Refusal::first_wrapping))]
fn check_ends(parts: &[Part]) -> Result<(), LoadErr>
    requires { length parts.now ≤ 16 }
    ensures { result ≡ load_answer (first_wrapping parts.now) }
{
    match first_to_wrap(parts) {
        Some(index) => Err(LoadErr::WrapsAround(index as u32)),
        None => Ok(()),
    }
}

#[tactic(auto, unfolding(crate::specs::Refusal::too_large))]
fn check_size(parts: &[Part]) -> Result<(), LoadErr>
    requires { length parts.now ≤ 16 }
    ensures { result ≡ load_answer (too_large parts.now) }
{
    let size: u64 = parts.iter().map(|part| u64::from(part.size)).sum();
    if size > MOST_BYTES {
        return Err(LoadErr::TooLarge(size));
    }
    Ok(())
}

#[tactic(auto, unfolding(crate::specs::Refusal::first_overlap))]
fn check_overlaps(parts: &[Part]) -> Result<(), LoadErr>
    requires { length parts.now ≤ 16 }
    ensures { result ≡ load_answer (first_overlap parts.now) }
{
    for (second, part) in parts.iter().enumerate() {
        if let Some(first) = first_to_overlap(&parts[..second], part) {
            return Err(LoadErr::Overlap(first as u32, second as u32));
        }
    }
    Ok(())
}

/// Tests the parts, in the order of the definition.
#[tactic(auto, unfolding(crate::specs::Refusal::refusal))]
pub(crate) fn check(parts: &[Part]) -> Result<(), LoadErr>
    ensures { result ≡ load_answer (refusal parts.now) }
{
    check_count(parts)?;
    check_ends(parts)?;
    check_size(parts)?;
    check_overlaps(parts)
}
