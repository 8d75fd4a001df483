//! The words of a line.

ghost use Rattle.std.specs.Prelude.{◌≡◌, ◌==◌, length, drop};
ghost use Rattle.run_scripts.specs.Words.{words_of, first_word, first_number, first_address};

use crate::refusal::ScriptKind;
use rv_text::{numeral, split_name, trim};
use std::marker::Model;

/// The remaining words of a line. Words are separated by spaces and tabs.
#[derive(Drop)]
pub struct Words<'a> {
    rest: &'a [u8],
}

impl<'a> Model for Words<'a> {
    ghost use Rattle.std.specs.Prelude.{ℕ, List};
    ghost use Rattle.run_scripts.specs.Words.{words_of};

    ghost Value = { List (List ℕ) };

    ghost view = { λ words. words_of words.rest.now };
}

impl<'a> Words<'a> {
    /// The words of a line.
    pub fn of(line: &'a [u8]) -> Words<'a>
        ensures { result ≡ words_of line.now }
    {
        Words { rest: line }
    }

    /// Whether no word is left.
    #[tactic(auto, using(crate::proofs::WordCuts::cuts))]
    pub fn is_empty(&self) -> bool
        ensures { result ≡ (length self.now == 0) }
    {
        trim(self.rest).is_empty()
    }

    /// The next word, or an empty text if none is left.
    #[tactic(auto, using(crate::proofs::WordCuts::cuts))]
    pub fn next(&mut self) -> &'a [u8]
        ensures word { result.now ≡ first_word self.old }
        ensures left { self.new ≡ drop 1 self.old }
    {
        let (word, after) = split_name(self.rest);
        self.rest = after;
        word
    }

    /// The number that the next word spells: one to nine decimal digits.
    #[tactic(auto, unfolding(crate::specs::Words::first_number))]
    pub fn number(&mut self) -> Result<u32, ScriptKind>
        ensures number { result ≡ first_number self.old }
        ensures left { self.new ≡ drop 1 self.old }
    {
        match numeral(self.next(), 10, 9) {
            Some(number) => Ok(number as u32),
            None => Err(ScriptKind::BadNumber),
        }
    }

    /// The address that the next word spells: eight hexadecimal digits of either case.
    #[tactic(auto, unfolding(crate::specs::Words::first_address))]
    pub fn address(&mut self) -> Result<u32, ScriptKind>
        ensures address { result ≡ first_address self.old }
        ensures left { self.new ≡ drop 1 self.old }
    {
        let word = self.next();
        if word.len() != 8 {
            return Err(ScriptKind::BadNumber);
        }
        match numeral(word, 16, 8) {
            Some(address) => Ok(address as u32),
            None => Err(ScriptKind::BadNumber),
        }
    }
}
