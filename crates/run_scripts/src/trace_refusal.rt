//! Why a text is not the trace of a run.

use cf_bind::Bar;

/// Why a text is not the trace of a run. The next group of lines is tested in this order, except that a text without a
/// further line feed is `Cut` before all other tests.
#[derive(Clone, Copy, PartialEq, Eq)]
pub enum TraceKind {
    /// The group does not begin with a line that is written for a move, with the next number.
    NotAMove,

    /// The move cannot be made: the bar is the first of its row in the table of moves.
    Barred(Bar),

    /// A byte differs from what is shown for the move.
    Differs,

    /// The trace ends within a group.
    Cut,
}
