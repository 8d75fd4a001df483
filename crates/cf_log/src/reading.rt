//! Reading a line.

ghost use Rattle.std.specs.Prelude.{◌≡◌};
ghost use Rattle.run_scripts.specs.MoveLines.{move_in};
ghost use Rattle.cf_log.specs.Lines.{log_line_read, numbered_said, numbered_told, move_said, said_in, said_words};

use crate::kind::LogKind;
use crate::said::{Said, TimedLine};
use crate::subject::{is_decimal, subject_in};
use crate::time::{after_time, time_of};
use run_scripts::{ScriptKind, is_skipped, read_move};
use rv_text::split_name;
use texts::is_ascii;

/// The maximum number of bytes in a line.
const LONGEST_LINE: usize = 512;

/// The move that the words are.
fn read_plain(text: &[u8]) -> Result<Said, LogKind>
    ensures { result ≡ move_said (move_in text.now) }
{
    match read_move(text) {
        Ok(mv) => Ok(Said::Makes(mv)),
        Err(ScriptKind::UnknownMove) => Err(LogKind::UnknownLine),
        Err(ScriptKind::BadNumber) => Err(LogKind::BadNumber),
        Err(ScriptKind::ExtraWords) => Err(LogKind::ExtraWords),
        Err(ScriptKind::NotAscii) => Err(LogKind::NotAscii),
    }
}

/// The move after its number.
fn read_after_number(text: &[u8]) -> Result<Said, LogKind>
    ensures { result ≡ numbered_told (move_in text.now) }
{
    match read_move(text) {
        Ok(mv) => Ok(Said::Makes(mv)),
        Err(ScriptKind::ExtraWords) => Err(LogKind::ExtraWords),
        Err(ScriptKind::UnknownMove) => Err(LogKind::BadNumber),
        Err(ScriptKind::BadNumber) => Err(LogKind::BadNumber),
        Err(ScriptKind::NotAscii) => Err(LogKind::BadNumber),
    }
}

/// What follows `move`: the number of the next move, and a move.
#[tactic(auto, unfolding(crate::specs::Lines::numbered_said))]
fn read_numbered(text: &[u8], next: u64) -> Result<Said, LogKind>
    ensures { result ≡ numbered_said next text.now }
{
    let (number, after) = split_name(text);
    if is_decimal(number, next) {
        read_after_number(after)
    } else {
        Err(LogKind::BadNumber)
    }
}

/// What words say that do not begin with `move`.
fn read_other(text: &[u8]) -> Result<Said, LogKind>
    ensures { result ≡ said_words text.now }
{
    match subject_in(text) {
        Some(subject) => Ok(Said::Observes(subject)),
        None => read_plain(text),
    }
}

/// What the words after the time say.
#[tactic(auto, unfolding(crate::specs::Lines::said_in))]
fn read_said(text: &[u8], next: u64) -> Result<Said, LogKind>
    ensures { result ≡ said_in next text.now }
{
    let (word, after) = split_name(text);
    if word == b"move".as_slice() {
        read_numbered(after, next)
    } else {
        read_other(text)
    }
}

/// What a line of a log says, or the first of `TooLong`, `NotAscii`, `BadTime`, `UnknownLine`, `BadNumber` and
/// `ExtraWords` that holds. `earlier` is the latest time before it, and `next` is the number of the next move. A
/// comment and a line without words say nothing, and are refused only if they are too long.
#[tactic(auto, unfolding(crate::specs::Lines::log_line_read))]
pub fn read_line(line: &[u8], earlier: u64, next: u64) -> Result<Option<TimedLine>, LogKind>
    ensures { result ≡ log_line_read earlier next line.now }
{
    if line.len() > LONGEST_LINE {
        return Err(LogKind::TooLong);
    }
    if is_skipped(line) {
        return Ok(None);
    }
    if !is_ascii(line) {
        return Err(LogKind::NotAscii);
    }
    let time = time_of(line, earlier)?;
    let said = read_said(after_time(line), next)?;
    Ok(Some(TimedLine { time, said }))
}
