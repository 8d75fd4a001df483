//! The text of a move in a script.
#![tactic(auto, unfolding(crate::specs::MoveTexts::move_line))]

ghost use Rattle.std.specs.Prelude.{◌≡◌, ◌+◌, ◌≤◌, ◌++◌, length};
ghost use Rattle.cf_bind.specs.MoveTexts.{guess_text as text_of, text_at_stage, move_line};

use crate::move_line::MoveLine;
use crate::moves::Move;
use crate::passenger::Guess;

/// Appends the guess to the line.
fn push_guess(guess: Guess, line: &mut MoveLine)
    requires { length line.old + 11 ≤ 32 }
    ensures { line.new ≡ line.old ++ text_of guess }
{
    match guess {
        Guess::Next => line.push(b"next"),
        Guess::Taken => line.push(b"taken"),
        Guess::Wait => line.push(b"wait"),
        Guess::To(target) => {
            line.push(b"to ");
            line.push_hex(target);
        }
    }
}

/// Makes the line hold a kind of move and a number.
fn numbered(kind: &[u8], number: u32, line: &mut MoveLine)
    requires { length kind.now + 11 ≤ 32 }
    ensures text { line.new ≡ text_at_stage kind.now number }
    ensures size { length line.new ≤ length kind.now + 11 }
{
    line.set(kind);
    line.push(b" ");
    line.push_decimal(number);
}

/// Makes the line hold the move's text and nothing else: one space between words, numbers without leading zeros, an
/// address in eight digits.
pub fn move_text(mv: Move, line: &mut MoveLine)
    ensures { line.new ≡ move_line mv }
{
    match mv {
        Move::Issue(guess) => {
            line.set(b"issue ");
            push_guess(guess, line);
        }
        Move::Emit => line.set(b"emit"),
        Move::Climb(stage) => numbered(b"climb", stage, line),
        Move::Fall(stage) => numbered(b"fall", stage, line),
        Move::Meet(stage) => numbered(b"meet", stage, line),
        Move::Execute(stage) => numbered(b"execute", stage, line),
        Move::Send(stage) => numbered(b"send", stage, line),
        Move::Launch(stage) => numbered(b"launch", stage, line),
        Move::Slide(siding, cell) => {
            numbered(b"slide", siding, line);
            line.push(b" ");
            line.push_decimal(cell);
        }
        Move::Access => line.set(b"access"),
        Move::Recover(stage) => numbered(b"recover", stage, line),
        Move::Leave => line.set(b"leave"),
        Move::Exit => line.set(b"exit"),
        Move::Serve => line.set(b"serve"),
    }
}
