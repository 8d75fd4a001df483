//! Sets of stages.

ghost use Rattle.std.specs.Prelude.{◌≡◌, ◌↔◌, IsTrue, ◌≤◌, ◌-◌, ◌∷◌, ◌++◌, if◌then◌else◌, IfOk, [], length, ◌<◌, ◌+◌, ℕ, pos, ◌||◌, find, nat_eq, nat_lt};
ghost use Rattle.cf_layout.specs.Words.{has_bit};
ghost use Rattle.std.specs.List.{list_any};
ghost use Rattle.cf_layout.specs.Layout.{last_of};
ghost use Rattle.cf_layout.specs.Asked.{ascending, is_integer};

use crate::bits::{has_bit, with_bit};
use std::alloc::{AllocError, Global};
use std::marker::Model;

/// A set of stages: bit i - 1 for stage i.
#[derive(Clone, Copy)]
pub(crate) struct StageSet {
    word: u32,
}

impl Model for StageSet {
    ghost use Rattle.std.specs.Prelude.{ℕ, List, ◌<◌, ◌^◌};
    ghost use Rattle.cf_layout.specs.Words.{stages_of_word, word_of_list, bit_of};
    ghost use Rattle.cf_layout.specs.Kept.{stages_kept};

    ghost Value = { List ℕ };

    ghost view = { λ s. stages_of_word s.word };

    ghost invariant = { λ s. s.word < 2 ^ 32 };

    ghost inverse = { λ stages. record { word = word_of_list bit_of stages } };

    ghost inverse_ok = { λ s h i. record { word = stages_kept s.word h i } };
}

/// The word with the bit of the stage, if that is from 1 to 32.
#[tactic(auto, using(crate::proofs::Words::stage_bit))]
fn with_stage(word: u32, stage: i64) -> u32
    ensures { (i : ℕ) → i < 32 → has_bit result i ≡ (has_bit word i || is_integer (i + 1) stage) }
{
    if 1 <= stage && stage <= 32 {
        with_bit(word, (stage - 1) as u32)
    } else {
        word
    }
}

/// Adds the stage, if the word has its bit.
fn add_stage(list: &mut Vec<u32>, word: u32, stage: u32) -> Result<(), AllocError>
    requires low { 1 ≤ stage }
    requires high { stage < 33 }
    ensures { IfOk result (λ done. list.new.items ≡ list.old.items ++ (if has_bit word (stage - 1) then stage ∷ [] else [])) }
{
    if has_bit(word, stage - 1) {
        list.push(stage)?;
    }
    Ok(())
}

impl StageSet {
    /// The empty set.
    #[tactic(auto, using(crate::proofs::Words::no_stages))]
    pub(crate) fn empty() -> StageSet
        ensures { result ≡ [] }
    {
        StageSet { word: 0 }
    }

    /// The stages of the list from 1 to 32. The others were refused before.
    #[tactic(auto, using(crate::proofs::Words::no_bits, std::proofs::lemmas::List::Folds::list_any_more, crate::proofs::Words::stages_by))]
    pub(crate) fn of(stages: &[i64]) -> StageSet
        ensures { result ≡ ascending stages.now }
    {
        let mut word = 0;
        for stage in stages {
            word = with_stage(word, *stage);
        }
        StageSet { word }
    }

    /// Whether the set has no stage.
    #[inline(always)]
    #[tactic(auto, using(crate::proofs::Words::some_stage))]
    pub(crate) fn is_empty(self) -> bool
        ensures { result ≡ nat_eq (length self) 0 }
    {
        self.word == 0
    }

    /// Whether the two sets have the same stages.
    #[tactic(auto, using(crate::specs::Kept::stages_kept))]
    pub(crate) fn same(self, other: StageSet) -> bool
        ensures { IsTrue result ↔ (self ≡ other) }
    {
        self.word == other.word
    }

    /// Whether the stage is in the set.
    #[inline(always)]
    #[tactic(auto, using(crate::proofs::Words::stage_in, crate::proofs::Words::stage_below, crate::proofs::Words::stage_above))]
    pub(crate) fn has(self, stage: u32) -> bool
        ensures { result ≡ list_any (nat_eq stage) self }
    {
        match stage {
            1..=32 => has_bit(self.word, stage - 1),
            _ => false,
        }
    }

    /// The lowest stage of the set above the other stage.
    #[tactic(auto, using(crate::proofs::Words::find_next, crate::proofs::Words::from_first, crate::proofs::Words::from_end))]
    pub(crate) fn first_above(self, other: u32) -> Option<u32>
        ensures { result ≡ find (nat_lt other) self }
    {
        for stage in 1..33 {
            if other < stage && has_bit(self.word, stage - 1) {
                return Some(stage);
            }
        }
        None
    }

    /// The highest stage of the set, or the other stage if the set is empty.
    #[inline(always)]
    #[tactic(auto, using(crate::proofs::Highest::last_of_some, crate::proofs::Highest::last_of_none))]
    pub(crate) fn last_or(self, other: u32) -> u32
        ensures { result ≡ last_of self other }
    {
        if self.word == 0 {
            other
        } else {
            32 - self.word.leading_zeros()
        }
    }

    /// The stages of the set, ascending.
    pub(crate) fn list(self, alloc: Global) -> Result<Vec<u32>, AllocError>
        ensures { IfOk result (λ list. list.items ≡ self) }
    {
        let mut list = Vec::new(alloc);
        for stage in 1..33 {
            add_stage(&mut list, self.word, stage)?;
        }
        Ok(list)
    }
}
