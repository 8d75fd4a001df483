//! How a run finishes.

use cf_bind::Bar;
use run_scripts::ScriptErr;

/// How a run finishes, whatever its schedule.
#[derive(Clone, Copy)]
pub enum Ran {
    /// The program ended itself with this status.
    Exit(u8),

    /// An instruction trapped.
    Trap { cause: u8, pc: u32, detail: u32 },

    /// As many instructions have retired as the limit allows.
    Limit,

    /// The input failed in a call of the environment.
    ReadFault,

    /// The output failed in a call of the environment.
    WriteFault,

    /// The report failed.
    ReportFault,
}

/// How the run of a script finishes.
#[derive(Clone, Copy)]
pub enum Scripted {
    /// In one of the ways in which any run may finish.
    Ran(Ran),

    /// The script has no further move.
    ScriptEnd,

    /// The line that was reached is not a move.
    BadScript(ScriptErr),

    /// The move of this line cannot be made: the bar is the first of its row in the table of moves.
    BarredAt { line: u32, bar: Bar },
}
