//! Reading a line.

ghost use Rattle.std.specs.Prelude.{◌≡◌, drop};
ghost use Rattle.run_scripts.specs.MoveLines.{move_in};
ghost use Rattle.run_scripts.specs.Words.{words_of};
ghost use Rattle.cf_debug.specs.Commands.{address_told, command_alone, auto_told, back_told, break_told, code_told, command_in, command_named, lone_command, lone_told, memory_told, move_told, number_told, other_told, stop_told, why_told};

use crate::command::{DebugCommand, Refusal, View};
use run_scripts::{Words, place_named, read_move};
use rv_text::{numeral, split_name};

/// The maximum number of moves of one command.
const MOST_MOVES: u32 = 1_000_000;

/// The maximum number of moves that one command takes back.
const MOST_KEPT: u32 = 1024;

/// The number that the next word spells: one to nine decimal digits, from 1 up to a limit.
#[tactic(auto, unfolding(crate::specs::Commands::number_told))]
fn number(words: &mut Words<'_>, most: u32) -> Result<u32, Refusal>
    ensures number { result ≡ number_told most words.old }
    ensures left { words.new ≡ drop 1 words.old }
{
    match words.number() {
        Ok(number) => {
            if 1 <= number && number <= most {
                Ok(number)
            } else {
                Err(Refusal::BadNumber)
            }
        }
        Err(_) => Err(Refusal::BadNumber),
    }
}

/// The address that a word spells: eight hexadecimal digits of either case.
#[tactic(auto, unfolding(crate::specs::Commands::address_told))]
fn address(word: &[u8]) -> Result<u32, Refusal>
    ensures { result ≡ address_told word.now }
{
    if word.len() != 8 {
        return Err(Refusal::BadNumber);
    }
    match numeral(word, 16, 8) {
        Some(address) => Ok(address as u32),
        None => Err(Refusal::BadNumber),
    }
}

/// The command, if no word is left.
#[tactic(auto, unfolding(crate::specs::Commands::command_alone))]
fn alone(words: &Words<'_>, command: DebugCommand) -> Result<DebugCommand, Refusal>
    ensures { result ≡ command_alone words.now command }
{
    if words.is_empty() {
        Ok(command)
    } else {
        Err(Refusal::ExtraWords)
    }
}

/// What follows `move`: a move, as in a script.
fn read_moves(after: &[u8]) -> Result<DebugCommand, Refusal>
    ensures { result ≡ move_told (move_in after.now) }
{
    match read_move(after) {
        Ok(mv) => Ok(DebugCommand::Move(mv)),
        Err(kind) => Err(Refusal::Script(kind)),
    }
}

/// What follows `why`: a move, as in a script.
fn read_why(after: &[u8]) -> Result<DebugCommand, Refusal>
    ensures { result ≡ why_told (move_in after.now) }
{
    match read_move(after) {
        Ok(mv) => Ok(DebugCommand::Show(View::Standing(mv))),
        Err(kind) => Err(Refusal::Script(kind)),
    }
}

/// What follows `auto`: how many moves.
#[tactic(auto, unfolding(crate::specs::Commands::auto_told))]
fn read_auto(mut words: Words<'_>) -> Result<DebugCommand, Refusal>
    ensures { result ≡ auto_told words.entry }
{
    let count = number(&mut words, MOST_MOVES)?;
    alone(&words, DebugCommand::Auto(count))
}

/// What follows `back`: how many moves, or nothing for one.
#[tactic(auto, unfolding(crate::specs::Commands::back_told))]
fn read_back(mut words: Words<'_>) -> Result<DebugCommand, Refusal>
    ensures { result ≡ back_told words.entry }
{
    if words.is_empty() {
        return Ok(DebugCommand::Back(1));
    }
    let count = number(&mut words, MOST_KEPT)?;
    alone(&words, DebugCommand::Back(count))
}

/// What follows `list`: an address.
#[tactic(auto, unfolding(crate::specs::Commands::code_told))]
fn read_code(mut words: Words<'_>) -> Result<DebugCommand, Refusal>
    ensures { result ≡ code_told words.entry }
{
    let address = address(words.next())?;
    alone(&words, DebugCommand::Show(View::Code(address)))
}

/// What follows `mem`: an address, and how many bytes.
#[tactic(auto, unfolding(crate::specs::Commands::memory_told))]
fn read_memory(mut words: Words<'_>) -> Result<DebugCommand, Refusal>
    ensures { result ≡ memory_told words.entry }
{
    let start = address(words.next())?;
    let len = number(&mut words, 16)?;
    alone(&words, DebugCommand::Show(View::Memory(start, len)))
}

/// An address, or `none`.
#[tactic(auto, unfolding(crate::specs::Commands::break_told))]
fn break_address(word: &[u8]) -> Result<Option<u32>, Refusal>
    ensures { result ≡ break_told word.now }
{
    if word == b"none".as_slice() {
        Ok(None)
    } else {
        Ok(Some(address(word)?))
    }
}

/// What follows `break`.
#[tactic(auto, unfolding(crate::specs::Commands::stop_told))]
fn read_break(mut words: Words<'_>) -> Result<DebugCommand, Refusal>
    ensures { result ≡ stop_told words.entry }
{
    let stop = break_address(words.next())?;
    alone(&words, DebugCommand::Break(stop))
}

/// The command of this name, if it is one after which no word may follow.
#[tactic(auto, unfolding(crate::specs::Commands::lone_command))]
fn lone_command(name: &[u8]) -> Option<DebugCommand>
    ensures { result ≡ lone_command name.now }
{
    if name == b"show".as_slice() {
        Some(DebugCommand::Show(View::Picture))
    } else if name == b"regs".as_slice() {
        Some(DebugCommand::Show(View::Registers))
    } else if name == b"bound".as_slice() {
        Some(DebugCommand::Show(View::Bound))
    } else if name == b"moves".as_slice() {
        Some(DebugCommand::Show(View::Allowed))
    } else if name == b"help".as_slice() {
        Some(DebugCommand::Show(View::Help))
    } else if name == b"end".as_slice() {
        Some(DebugCommand::End)
    } else {
        None
    }
}

/// A command after which no word may follow, with the text after its name.
fn read_lone(name: &[u8], after: &[u8]) -> Result<DebugCommand, Refusal>
    ensures { result ≡ lone_told (lone_command name.now) (words_of after.now) }
{
    match lone_command(name) {
        Some(command) => alone(&Words::of(after), command),
        None => Err(Refusal::UnknownCommand),
    }
}

/// The command of a line whose name is none of these: the name of a move, after which the whole line is a move as in a
/// script, or a command after which no word may follow.
#[tactic(auto, unfolding(crate::specs::Commands::other_told))]
fn read_other(line: &[u8], name: &[u8], after: &[u8]) -> Result<DebugCommand, Refusal>
    ensures { result ≡ other_told line.now name.now after.now }
{
    if place_named(name).is_some() {
        read_moves(line)
    } else {
        read_lone(name, after)
    }
}

/// The command of a line, by its name and the text after it.
#[tactic(auto, unfolding(crate::specs::Commands::command_named))]
fn read_named(line: &[u8], name: &[u8], after: &[u8]) -> Result<DebugCommand, Refusal>
    ensures { result ≡ command_named line.now name.now after.now }
{
    if name == b"".as_slice() {
        Ok(DebugCommand::Nothing)
    } else if name == b"move".as_slice() {
        read_moves(after)
    } else if name == b"auto".as_slice() {
        read_auto(Words::of(after))
    } else if name == b"mem".as_slice() {
        read_memory(Words::of(after))
    } else if name == b"break".as_slice() {
        read_break(Words::of(after))
    } else if name == b"why".as_slice() {
        read_why(after)
    } else if name == b"back".as_slice() {
        read_back(Words::of(after))
    } else if name == b"list".as_slice() {
        read_code(Words::of(after))
    } else {
        read_other(line, name, after)
    }
}

/// The command of a line, or the first refusal of `TooLong`, `UnknownCommand`, `BadNumber` and `ExtraWords`; after
/// `move`, `why` and the name of a move the refusals of scripts replace the last two.
#[tactic(auto, unfolding(crate::specs::Commands::command_in))]
pub(crate) fn read_command(line: &[u8]) -> Result<DebugCommand, Refusal>
    ensures { result ≡ command_in line.now }
{
    if line.len() > 256 {
        return Err(Refusal::TooLong);
    }
    let (name, after) = split_name(line);
    read_named(line, name, after)
}
