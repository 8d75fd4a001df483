//! What a move shows from outside.

use cf_bind::End;
use rv_machine::Retired;

/// What can be seen of a move from outside.
#[derive(Clone, Copy, PartialEq, Eq)]
pub enum Event {
    /// Nothing.
    Plain,

    /// A meeting killed the result.
    Killed,

    /// A meeting made the instruction dead.
    Died,

    /// An instruction retired.
    Retired(Retired),

    /// The program ended.
    Ended(End),
}
