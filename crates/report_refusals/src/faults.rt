//! Why files are refused, by the kind that was expected.

use elf_view::ElfErr;
use mem_regions::LoadErr;
use run_scripts::{DelayErr, ScriptErr, TraceKind};

/// Why a file is not a program.
#[derive(Clone, Copy)]
pub enum ProgramErr {
    /// It is longer than a program may be.
    TooLong,

    /// It begins as an ELF file does, but cannot be viewed as one.
    Elf(ElfErr),

    /// The parts of memory that it describes cannot be loaded. A part is named by its index among the segments of a
    /// size above 0; the stack comes after them.
    Load(LoadErr),
}

/// Why a file is not a script of moves that can be made.
#[derive(Clone, Copy)]
pub enum ScriptFault {
    /// It is longer than a script may be.
    TooLong,

    /// The line that was reached is not a move.
    Line(ScriptErr),
}

/// Why a file is not a file of delays.
#[derive(Clone, Copy)]
pub enum DelaysFault {
    /// It is longer than a file of delays may be.
    TooLong,

    /// A line gives no delay.
    Line(DelayErr),
}

/// Why a file is not the trace of a run.
#[derive(Clone, Copy)]
pub enum TraceFault {
    /// It is longer than a trace may be.
    TooLong,

    /// The line where the trace goes wrong, counted from 1, and the reason.
    Line { line: u32, kind: TraceKind },
}
