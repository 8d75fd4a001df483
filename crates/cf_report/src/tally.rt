//! The counts of a run.

/// The counts over a list of moves.
#[derive(Clone, Copy, Debug, PartialEq, Eq)]
pub struct Tally {
    /// The moves that were made.
    pub moves: u64,

    /// The meetings among them.
    pub meets: u64,

    /// The meetings that killed their result.
    pub kills: u64,

    /// The meetings in which a live instruction died.
    pub dead: u64,
}
