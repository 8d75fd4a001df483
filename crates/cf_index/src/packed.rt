//! The candidates of a small processor, in two words.

ghost use Rattle.std.specs.List.{list_any};
ghost use Rattle.std.specs.Prelude.{◌≡◌, ℕ, ◌+◌, ◌-◌, ◌*◌, ◌/◌, ◌%◌, ◌^◌, ◌<◌, ◌≤◌, Some, length, slice_get};
ghost use Rattle.cf_index.specs.Listed.{slides_of};
ghost use Rattle.cf_index.specs.Order.{is_slide};
ghost use Rattle.cf_index.specs.Packed.{entering_at, leaving_at, packed_at, packed_moves};

use crate::bits::{count, nth};
use cf_bind::{Guess, Move};
use std::marker::Model;

/// A list of moves of a layout with at most eight stages, in the order of all moves, as the bits of two words. Contracts
/// see the list.
#[derive(Drop)]
pub struct PackedCandidates {
    /// All but the Slides: Issue by each guess other than an address, and Emit; eight bits each for Climb, Fall, Meet,
    /// Execute, Send and Launch; from bit 52 on Access, eight bits for Recover, Leave, Exit and Serve.
    pub(crate) word: u64,

    /// The Slides, which come before bit 52 of the other word: bit 8k + c for cell c of siding k.
    pub(crate) slides: u64,
}

impl Model for PackedCandidates {
    ghost use Rattle.std.specs.Prelude.{List};
    ghost use Rattle.cf_bind.specs.declared.moves.Move.{Move};
    ghost use Rattle.cf_index.specs.Packed.{packed_with};

    ghost Value = { List Move };

    ghost view = { λ c. packed_with c.word c.slides };
}

/// The move of one of the lowest four bits.
#[inline(always)]
fn entering(place: u32) -> Move
    ensures { result ≡ entering_at place }
{
    match place {
        0 => Move::Issue(Guess::Next),
        1 => Move::Issue(Guess::Taken),
        2 => Move::Issue(Guess::Wait),
        _ => Move::Emit,
    }
}

/// The move of one of the bits 52 to 59, counted from the lowest of them.
#[inline(always)]
fn recovering(place: u32) -> Move
    requires { place < 8 }
    ensures { result ≡ leaving_at place }
{
    match place {
        0 => Move::Access,
        i => Move::Recover(i),
    }
}

/// The move of one of the highest four bits, counted from the lowest of them.
#[inline(always)]
fn leaving(place: u32) -> Move
    requires { place < 4 }
    ensures { result ≡ leaving_at (8 + place) }
{
    match place {
        0 => Move::Recover(8),
        1 => Move::Leave,
        2 => Move::Exit,
        _ => Move::Serve,
    }
}

/// The move of a bit.
#[inline(always)]
#[tactic(auto, unfolding(crate::specs::Packed::packed_at))]
fn unpacked(place: u32) -> Move
    requires { place < 64 }
    ensures { result ≡ packed_at place }
{
    let stage = (place + 4) % 8 + 1;
    match (place + 4) / 8 {
        0 => entering(place),
        1 => Move::Climb(stage),
        2 => Move::Fall(stage),
        3 => Move::Meet(stage),
        4 => Move::Execute(stage),
        5 => Move::Send(stage),
        6 => Move::Launch(stage),
        7 => recovering(place - 52),
        8 => leaving(place - 60),
        _ => unreachable!(),
    }
}

/// How many moves a word has.
#[inline(always)]
#[tactic(auto, using(crate::proofs::PackedWords::length_packed))]
fn count_packed(word: u64) -> usize
    ensures count { result ≡ length (packed_moves word) }
    ensures most { result ≤ 64 }
{
    count(word)
}

/// The move of a word at this place, counted from 0.
#[inline(always)]
fn nth_packed(word: u64, i: usize) -> Move
    requires { i < length (packed_moves word) }
    ensures { Some result ≡ slice_get (packed_moves word) i }
{
    unpacked(nth(word, i))
}

/// How many Slides a word has.
#[inline(always)]
#[tactic(auto, using(crate::proofs::Parts::length_slides))]
fn count_slides(slides: u64) -> usize
    ensures count { result ≡ length (slides_of slides) }
    ensures most { result ≤ 64 }
{
    count(slides)
}

/// Whether a word has Slides.
#[inline(always)]
#[tactic(auto, using(crate::proofs::PackedWords::some_slide))]
fn are_some(slides: u64) -> bool
    ensures { result ≡ list_any is_slide (slides_of slides) }
{
    0 < slides
}

/// The Slide of a word at this place, counted from 0.
#[inline(always)]
fn nth_slide(slides: u64, i: usize) -> Move
    requires { i < length (slides_of slides) }
    ensures { Some result ≡ slice_get (slides_of slides) i }
{
    let place = nth(slides, i);
    Move::Slide(place / 8, place % 8)
}

impl PackedCandidates {
    /// Whether there are Slides among them.
    #[inline(always)]
    pub fn has_slides(&self) -> bool
        ensures { result ≡ list_any is_slide self.now }
    {
        are_some(self.slides)
    }

    /// How many there are.
    #[inline(always)]
    #[tactic(auto, using(crate::proofs::PackedWords::parting))]
    pub fn len(&self) -> usize
        ensures count { result ≡ length self.now }
        ensures most { result ≤ 128 }
    {
        if self.slides == 0 {
            count_packed(self.word)
        } else {
            count_packed(self.word) + count_slides(self.slides)
        }
    }

    /// The move at this place, counted from 0.
    #[inline(always)]
    #[tactic(auto, using(crate::proofs::PackedWords::parting))]
    pub fn pick(&self, i: usize) -> Move
        requires { i < length self.now }
        ensures { Some result ≡ slice_get self.now i }
    {
        if self.slides == 0 {
            nth_packed(self.word, i)
        } else {
            self.pick_by_parts(i)
        }
    }

    /// The same, whether or not there are Slides; mostly there are none.
    #[inline(never)]
    #[tactic(auto, unfolding(crate::specs::Packed::packed_with))]
    fn pick_by_parts(&self, i: usize) -> Move
        requires { i < length self.now }
        ensures { Some result ≡ slice_get self.now i }
    {
        let low = self.word % (1 << 52);
        let before = count_packed(low);
        if i < before {
            return nth_packed(low, i);
        }
        let i = i - before;
        let slides = count_slides(self.slides);
        if i < slides {
            nth_slide(self.slides, i)
        } else {
            nth_packed(self.word - low, i - slides)
        }
    }
}
