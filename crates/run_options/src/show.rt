//! What a run shows.

/// What a run writes to the report while it runs, before the closing lines.
#[derive(Clone, Copy, PartialEq, Eq)]
pub enum Show {
    /// Nothing.
    Report,

    /// The line of each instruction that retires.
    Retired,

    /// For each move its line, the line of the instruction that retires with it, and the picture after it.
    Moves,
}
