//! How a call of the simulator ends.

ghost use Rattle.std.specs.Prelude.{◌≡◌};

use cf_bind::Bar;
use cf_log::LogErr;
use layout_file::FileErr;
use report_refusals::{DelaysFault, ProgramErr, ScriptFault, TraceFault};
use rv_asm::AsmErr;

/// What could not be read.
#[derive(Clone, Copy)]
pub enum Which {
    Layout,
    Program,
    Script,
    Source,
    Delays,
    Trace,
    Input,
}

/// How a call of the simulator ended.
#[derive(Drop)]
pub enum Status {
    /// The program ended itself with this code.
    Exit(u8),

    /// An instruction trapped: the cause, its address, and the address or the word at fault.
    Trap { cause: u8, pc: u32, detail: u32 },

    /// This many instructions had retired, and the program had not ended.
    Limit(Option<u64>),

    /// The script had no further move after this many were made, and the program had not ended.
    ScriptEnd(u64),

    /// The command was carried out, and its status is not that of a run.
    Done,

    /// The arguments are not those of any command: the index of the first unexpected one.
    BadWords(u32),

    /// The file is not a layout.
    BadLayout(FileErr),

    /// The file is not a program.
    BadProgram(ProgramErr),

    /// The file is not a script, or a line of it that was reached is not a move.
    BadScript(ScriptFault),

    /// The move of this line of the script could not be made: the bar is the first of its row in the table of moves.
    BarredAt { line: u32, bar: Bar },

    /// The assembly source is refused.
    BadSource(AsmErr),

    /// The file does not say how long moves take.
    BadDelays(DelaysFault),

    /// The file is not the trace of a run.
    BadTrace(TraceFault),

    /// The file is too long for the input of a program.
    BadInput,

    /// A line of the log is refused, or says something that is not true.
    BadLog(LogErr),

    /// The log had ended after this many moves, and the program had not.
    LogEnd(u64),

    /// A list of moves is wrong.
    Wrong,

    /// The lists of moves reach more states than this.
    TooMany(u32),

    /// A file or the input could not be read.
    ReadFault(Which),

    /// The output or the report could not be written.
    WriteFault,

    /// Memory was refused, before anything was written except, under `time`, the lines of earlier runs.
    NoMemory,
}

impl Status {
    ghost use Rattle.cli_files.specs.Codes.{exit_code};

    /// The status that the process ends with: a program's own, 0 at a script's end or after a command that was carried
    /// out and has no other, or a number from 120 on.
    pub fn code(&self) -> u8
        ensures { result ≡ exit_code self.now }
    {
        match self {
            Status::Exit(code) => *code,
            Status::Trap { .. } => 120,
            Status::Limit(_) => 121,
            Status::ScriptEnd(_) => 0,
            Status::Done => 0,
            Status::BadWords(_) => 122,
            Status::BadLayout(_) => 123,
            Status::BadProgram(_) => 124,
            Status::BadScript(_) => 125,
            Status::BarredAt { .. } => 126,
            Status::BadSource(_) => 127,
            Status::ReadFault(_) => 128,
            Status::WriteFault => 129,
            Status::NoMemory => 130,
            Status::BadDelays(_) => 131,
            Status::BadTrace(_) => 132,
            Status::BadLog(_) => 134,
            Status::LogEnd(_) => 135,
            Status::Wrong => 136,
            Status::TooMany(_) => 121,
            Status::BadInput => 137,
        }
    }
}
