//! Reading the line of a move.
#![tactic(auto, unfolding(crate::specs::MoveLines::guess_read, crate::specs::MoveLines::move_read))]

ghost use Rattle.std.specs.Prelude.{◌≡◌};
ghost use Rattle.run_scripts.specs.MoveLines.{guess_read, kind_read, move_read, words_read, move_in, ReadsWords};

use crate::kind::Kind;
use crate::refusal::ScriptKind;
use crate::usual::cut_move;
use crate::words::Words;
use cf_bind::{Guess, Move};
use texts::is_ascii;

/// The guess that the next words give.
fn read_guess(words: &mut Words<'_>) -> Result<Guess, ScriptKind>
    ensures { ReadsWords result words.new (guess_read words.old) }
{
    let word = words.next();
    if word == b"next".as_slice() {
        Ok(Guess::Next)
    } else if word == b"taken".as_slice() {
        Ok(Guess::Taken)
    } else if word == b"wait".as_slice() {
        Ok(Guess::Wait)
    } else if word == b"to".as_slice() {
        Ok(Guess::To(words.address()?))
    } else {
        Err(ScriptKind::UnknownMove)
    }
}

/// The move of a kind, with the words that must follow.
fn read_kind(kind: Kind, words: &mut Words<'_>) -> Result<Move, ScriptKind>
    ensures { ReadsWords result words.new (kind_read kind words.old) }
{
    match kind {
        Kind::Issue => Ok(Move::Issue(read_guess(words)?)),
        Kind::Emit => Ok(Move::Emit),
        Kind::Climb => Ok(Move::Climb(words.number()?)),
        Kind::Fall => Ok(Move::Fall(words.number()?)),
        Kind::Meet => Ok(Move::Meet(words.number()?)),
        Kind::Execute => Ok(Move::Execute(words.number()?)),
        Kind::Send => Ok(Move::Send(words.number()?)),
        Kind::Launch => Ok(Move::Launch(words.number()?)),
        Kind::Slide => Ok(Move::Slide(words.number()?, words.number()?)),
        Kind::Access => Ok(Move::Access),
        Kind::Recover => Ok(Move::Recover(words.number()?)),
        Kind::Leave => Ok(Move::Leave),
        Kind::Exit => Ok(Move::Exit),
        Kind::Serve => Ok(Move::Serve),
    }
}

/// The move that the next words give.
fn read_next(words: &mut Words<'_>) -> Result<Move, ScriptKind>
    ensures { ReadsWords result words.new (move_read words.old) }
{
    let kind = Kind::named(words.next()).ok_or(ScriptKind::UnknownMove)?;
    read_kind(kind, words)
}

/// The move that the words give, with none left.
#[tactic(auto, unfolding(crate::specs::MoveLines::words_read))]
fn read_words(mut words: Words<'_>) -> Result<Move, ScriptKind>
    ensures { result ≡ words_read words.entry }
{
    let mv = read_next(&mut words)?;
    if words.is_empty() {
        Ok(mv)
    } else {
        Err(ScriptKind::ExtraWords)
    }
}

/// The move that a line gives, or why it gives none: the first refusal of `NotAscii`, `UnknownMove`, `BadNumber` and
/// `ExtraWords`. No line is skipped: a blank one is `UnknownMove`.
#[tactic(auto, unfolding(crate::specs::MoveLines::move_in))]
pub fn read_move(line: &[u8]) -> Result<Move, ScriptKind>
    ensures { result ≡ move_in line.now }
{
    if let Some((mv, [])) = cut_move(line) {
        return Ok(mv);
    }
    if is_ascii(line) {
        read_words(Words::of(line))
    } else {
        Err(ScriptKind::NotAscii)
    }
}
