//! Why a text gives no delays.

/// Why a line gives no delay, in the order in which it is tested.
#[derive(Clone, Copy, Debug, PartialEq, Eq)]
pub enum DelayKind {
    /// A byte is above 127.
    NotAscii,

    /// The first word is not a kind of move.
    UnknownKind,

    /// An earlier line has given the delay of this kind.
    KindTwice,

    /// The second word is missing, or it is not one to four decimal digits that spell a number
    /// from 1 to 1000.
    BadDelay,

    /// There is a third word.
    ExtraWords,
}

/// The first line that gives no delay, and why.
#[derive(Clone, Copy, Debug, PartialEq, Eq)]
pub struct DelayErr {
    /// The line number, from 1.
    pub line: u32,

    /// Why it gives none.
    pub kind: DelayKind,
}
