//! What a line of a log says.

use cf_bind::Move;

/// What is observed. A stage or a siding is named by its number, which is `None` if it is missing or malformed.
#[derive(Clone, Copy)]
pub enum ObservedPart {
    /// The instruction that retired last.
    Retire,

    /// Fetch.
    Fetch,

    /// The lane of requests.
    Lane,

    /// The cache.
    Cache,

    /// A stage.
    Stage(Option<u32>),

    /// A siding.
    Siding(Option<u32>),

    /// A register of the register file.
    Register(u8),

    /// How the program ended.
    Ended,
}

/// What a line of a log says.
#[derive(Clone, Copy)]
pub enum Said {
    /// The circuit makes this move.
    Makes(Move),

    /// This is observed of the circuit.
    Observes(ObservedPart),
}

/// What a line of a log says, and the latest time up to it.
#[derive(Clone, Copy)]
pub struct TimedLine {
    pub time: u64,
    pub said: Said,
}
