//! Scripts, the schedules of runs: moves, line by line; and why a line of a script, of delays or of a trace is refused.
#![tactic(auto)]

mod delay_refusal;
mod kind;
pub mod laws;
mod reading;
mod refusal;
mod script;
mod trace_refusal;
mod usual;
mod words;
mod writing;

pub use delay_refusal::{DelayErr, DelayKind};
pub use kind::{kind_name, place_named};
pub use reading::read_move;
pub use refusal::{ScriptErr, ScriptKind};
pub use script::{MOST_SCRIPT, Script, is_skipped};
pub use trace_refusal::TraceKind;
pub use words::Words;
pub use writing::write_move;
