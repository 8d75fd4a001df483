//! What a comparison of times shows.

/// What is written about the run of a layout in addition to its time.
#[derive(Clone, Copy, PartialEq, Eq)]
pub enum TimeShow {
    /// Nothing.
    Nothing,

    /// What the time consists of: the stages, the sidings, the classes of instructions, and the chain of moves that
    /// finishes latest.
    /// last.
    Sites,

    /// Each move, with its start and its finish.
    Moves,
}
