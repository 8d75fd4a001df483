//! The outcome of an audit.

use run_scripts::TraceKind;

/// The outcome of an audit.
#[derive(Clone, Copy)]
pub enum Audit {
    /// The trace is that of a run of this many moves.
    Agrees(u64),

    /// Mismatch: the line where the trace goes wrong, counted from 1, and the reason.
    Wrong { line: u32, kind: TraceKind },

    /// The input failed in a call of the environment.
    ReadFault,
}
