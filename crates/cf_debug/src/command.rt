//! The commands of the debugger, and why a line is not a command.

use cf_bind::Move as AnyMove;
use run_scripts::ScriptKind;

/// A command of the debugger.
#[derive(Clone, Copy)]
pub(crate) enum DebugCommand {
    /// A line without words.
    Nothing,

    /// Makes a move.
    Move(AnyMove),

    /// Makes at most this many moves in turn.
    Auto(u32),

    /// Shows something of the processor.
    Show(View),

    /// Sets or clears the address at which `auto` stops.
    Break(Option<u32>),

    /// Takes this many moves back, the latest first.
    Back(u32),

    /// Ends the session.
    End,
}

/// The views of the processor that a command shows.
#[derive(Clone, Copy)]
pub(crate) enum View {
    /// Its picture.
    Picture,

    /// Its registers.
    Registers,

    /// This many bytes of memory, from an address on.
    Memory(u32, u32),

    /// The weight of its state.
    Bound,

    /// The moves that can be made.
    Allowed,

    /// Whether a move can be made, or its bar.
    Standing(AnyMove),

    /// The word that is fetched at an address.
    Code(u32),

    /// The commands of the debugger.
    Help,
}

/// Why a line is not a command. These are tested in this order.
#[derive(Clone, Copy)]
pub(crate) enum Refusal {
    /// The line has more than 256 bytes.
    TooLong,

    /// The first word is not a command.
    UnknownCommand,

    /// A number or an address is missing or misspelt, or out of its range.
    BadNumber,

    /// There are more words than the command takes.
    ExtraWords,

    /// The text after `move` is not a move of a script.
    Script(ScriptKind),
}
