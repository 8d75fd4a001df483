//! Writing the line of a move.
#![tactic(auto, using(crate::proofs::Sizes::sizes))]

ghost use Rattle.std.specs.Prelude.{◌≡◌, ◌<◌, ◌^◌};
ghost use Rattle.cf_bind.specs.MoveTexts.{move_line};
ghost use Rattle.run_scripts.specs.MoveLines.{NumbersBelow};

use cf_bind::{Guess, Move, MoveLine, move_text};
use rv_text::TextLine;

/// A fact for the prover: a `u32` is a word.
fn is_word(number: u32)
    ensures { number < 2 ^ 32 }
{
    let _ = number;
}

/// A fact for the prover: the numbers of a move are words, so its line is short.
fn has_words(mv: Move)
    ensures { NumbersBelow (2 ^ 32) mv }
{
    match mv {
        Move::Issue(Guess::To(target)) => is_word(target),
        Move::Climb(stage) => is_word(stage),
        Move::Fall(stage) => is_word(stage),
        Move::Meet(stage) => is_word(stage),
        Move::Execute(stage) => is_word(stage),
        Move::Send(stage) => is_word(stage),
        Move::Launch(stage) => is_word(stage),
        Move::Slide(siding, cell) => {
            is_word(siding);
            is_word(cell);
        }
        Move::Recover(stage) => is_word(stage),
        _ => {}
    }
}

/// Replaces the contents of the line by the move's text, without a line feed.
pub fn write_move(mv: Move, line: &mut TextLine)
    ensures { line.new ≡ move_line mv }
{
    has_words(mv);
    let mut text = MoveLine::new();
    move_text(mv, &mut text);
    line.set(text.bytes());
}
