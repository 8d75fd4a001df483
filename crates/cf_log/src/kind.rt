//! Why a line of a log is refused, and which line it is.

use cf_bind::Bar;

/// Why a line of a log is refused, in the order in which it is tested.
#[derive(Clone, Copy)]
pub enum LogKind {
    /// The line has more than 512 bytes.
    TooLong,

    /// A byte is above 127.
    NotAscii,

    /// The first word begins with `@` and is not a time, or is earlier than the latest time before it.
    BadTime,

    /// The first word after the time does not begin a line of a log; or it is `issue` without a guess.
    UnknownLine,

    /// A number in a move is missing or malformed, or the number of a move is not that of the next move.
    BadNumber,

    /// Words follow the move.
    ExtraWords,

    /// The move cannot be made: this is the first bar in its row of the table of moves that applies.
    Barred(Bar),

    /// The observation does not agree with the processor.
    Differs,
}

/// The first line of a log that is refused, and why.
#[derive(Clone, Copy)]
pub struct LogErr {
    /// The line number, counted from 1 and capped at the maximum `u32`.
    pub line: u32,

    /// Why it is refused.
    pub kind: LogKind,
}
