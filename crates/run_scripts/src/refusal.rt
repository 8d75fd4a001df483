//! What is wrong with a script.

/// Why a line gives no move, in the order in which it is tested.
#[derive(Clone, Copy, Debug, PartialEq, Eq)]
pub enum ScriptKind {
    /// The first word is not a kind of move, or the word after `issue` is not
    /// a guess.
    UnknownMove,

    /// A number is missing, or it is misspelt.
    BadNumber,

    /// There are more words than the move has.
    ExtraWords,

    /// A byte is above 127. This is tested before the other three.
    NotAscii,
}

/// The first line of a script that gives no move, and why.
#[derive(Clone, Copy, Debug, PartialEq, Eq)]
pub struct ScriptErr {
    /// The line number, from 1.
    pub line: u32,

    /// Why it gives none.
    pub kind: ScriptKind,
}
