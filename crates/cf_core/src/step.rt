//! The outcome of a step of the processor.

use cf_bind::Bar;
use cf_semantics::Event;

/// The outcome of a step of the processor.
#[derive(Clone, Copy, PartialEq, Eq)]
pub enum Step {
    /// The move was made, and this is what is seen of it.
    Moved(Event),

    /// The move cannot be made: this is the first bar of its row in the table of moves. Nothing changed.
    Barred(Bar),

    /// The input failed the call of the environment that Serve made.
    ReadFault,

    /// The output failed the call of the environment that Serve made.
    WriteFault,
}
