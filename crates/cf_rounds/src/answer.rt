//! What a round shows, and how a run in rounds finishes.

use cf_bind::End;
use rv_machine::Retired as Line;

/// What a round shows from outside.
#[derive(Clone, Copy)]
pub enum Fired {
    /// No instruction retired, and none ended the program.
    Plain,

    /// This instruction retired.
    Retired(Line),

    /// The program ended in this way.
    Ended(End),

    /// The input failed in a call of the environment.
    ReadFault,

    /// The output failed in a call of the environment.
    WriteFault,
}

/// How a run in rounds finishes.
#[derive(Clone, Copy)]
pub enum Clocked {
    /// The program ended itself with this status.
    Exit(u8),

    /// An instruction trapped.
    Trap { cause: u8, pc: u32, detail: u32 },

    /// As many instructions have retired as the limit allows.
    Limit,

    /// The input failed in a call of the environment.
    ReadFault,

    /// The output failed in a call of the environment.
    WriteFault,

    /// The report failed.
    ReportFault,
}
