//! How a timed run finishes.

/// How a timed run finishes.
#[derive(Clone, Copy)]
pub enum Timed {
    /// The program ended itself with this status.
    Exit(u8),

    /// An instruction trapped.
    Trap { cause: u8, pc: u32, detail: u32 },

    /// As many instructions have retired as the limit allows.
    Limit,

    /// The input failed in a call of the environment.
    ReadFault,

    /// The output failed in a call of the environment.
    WriteFault,
}

/// How a timed run finished, and how many moves it made.
#[derive(Clone, Copy)]
pub struct TimedRun {
    /// How it finished.
    pub answer: Timed,

    /// How many moves it made.
    pub moves: u64,
}
