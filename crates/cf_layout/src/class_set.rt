//! Sets of classes.

ghost use Rattle.std.specs.Prelude.{◌≡◌, ◌↔◌, IsTrue, ◌∷◌, ◌++◌, if◌then◌else◌, IfOk, [], ◌<◌, ◌^◌, ◌||◌};
ghost use Rattle.rv_inst.specs.declared.classes.Class.{Class as Kind};
ghost use Rattle.cf_layout.specs.Layout.{same_class, place_of};
ghost use Rattle.cf_layout.specs.Words.{has_bit};
ghost use Rattle.cf_layout.specs.Asked.{in_class_order, lists_class};

use crate::bits::{has_bit, with_bit};
use crate::classes::{CLASSES, place};
use rv_inst::Class;
use std::alloc::{AllocError, Global};
use std::marker::Model;

/// A set of classes that units or sidings compute: for each the bit of its index in class order.
#[derive(Clone, Copy)]
pub(crate) struct ClassSet {
    word: u32,
}

impl Model for ClassSet {
    ghost use Rattle.std.specs.Prelude.{List, ◌<◌, ◌^◌};
    ghost use Rattle.rv_inst.specs.declared.classes.Class.{Class};
    ghost use Rattle.cf_layout.specs.Layout.{place_of};
    ghost use Rattle.cf_layout.specs.Words.{classes_of_word, word_of_list};
    ghost use Rattle.cf_layout.specs.Kept.{classes_kept};

    ghost Value = { List Class };

    ghost view = { λ s. classes_of_word s.word };

    ghost invariant = { λ s. s.word < 2 ^ 9 };

    ghost inverse = { λ classes. record { word = word_of_list place_of classes } };

    ghost inverse_ok = { λ s h i. record { word = classes_kept s.word h i } };
}

/// The word with the bit of the class, if the class has one.
#[tactic(auto, using(crate::proofs::Words::class_bit, crate::proofs::Words::no_class_bit))]
fn with_class(word: u32, class: Class) -> u32
    ensures small { word < 2 ^ 9 → result < 2 ^ 9 }
    ensures bits { (c : Kind) → place_of c < 9 → has_bit result (place_of c) ≡ (has_bit word (place_of c) || same_class c class) }
{
    if place(class) < 9 {
        with_bit(word, place(class) as u32)
    } else {
        word
    }
}

/// Adds the class, if the word has its bit.
fn add_class(list: &mut Vec<Class>, word: u32, class: Class) -> Result<(), AllocError>
    ensures { IfOk result (λ done. list.new.items ≡ list.old.items ++ (if has_bit word (place_of class) then class ∷ [] else [])) }
{
    if has_bit(word, place(class) as u32) {
        list.push(class)?;
    }
    Ok(())
}

impl ClassSet {
    /// The empty set.
    #[tactic(auto, using(crate::proofs::Words::no_classes))]
    pub(crate) fn empty() -> ClassSet
        ensures { result ≡ [] }
    {
        ClassSet { word: 0 }
    }

    /// Those classes of the list that units or sidings compute.
    #[tactic(auto, using(crate::proofs::Words::no_bits, std::proofs::lemmas::List::Folds::list_any_more, crate::proofs::Words::classes_by))]
    pub(crate) fn of(classes: &[Class]) -> ClassSet
        ensures { result ≡ in_class_order classes.now }
    {
        let mut word = 0;
        for class in classes {
            word = with_class(word, *class);
        }
        ClassSet { word }
    }

    /// Whether the two sets have the same classes.
    #[tactic(auto, using(crate::specs::Kept::classes_kept))]
    pub(crate) fn same(self, other: ClassSet) -> bool
        ensures { IsTrue result ↔ (self ≡ other) }
    {
        self.word == other.word
    }

    /// Whether the class is in the set.
    #[inline(always)]
    #[tactic(auto, using(crate::proofs::Words::class_in))]
    pub(crate) fn has(self, class: Class) -> bool
        ensures { result ≡ lists_class self class }
    {
        has_bit(self.word, place(class) as u32)
    }

    /// The classes of the set, in class order.
    pub(crate) fn list(self, alloc: Global) -> Result<Vec<Class>, AllocError>
        ensures { IfOk result (λ list. list.items ≡ self) }
    {
        let mut list = Vec::new(alloc);
        for class in &CLASSES {
            add_class(&mut list, self.word, *class)?;
        }
        Ok(list)
    }
}
