//! Refusals as reports name them: the bars of moves, and why a file, or a line of one, is refused.
#![tactic(auto)]

mod bars;
mod cutting;
mod delays;
mod faults;
mod kept;
mod layouts;
mod programs;
mod scripts;
mod sources;
mod traces;

pub use bars::push_bar;
pub use delays::bad_delays;
pub use faults::{DelaysFault, ProgramErr, ScriptFault, TraceFault};
pub use layouts::bad_layout;
pub use programs::bad_program;
pub use scripts::push_script;
pub use sources::bad_source;
pub use traces::bad_trace;
