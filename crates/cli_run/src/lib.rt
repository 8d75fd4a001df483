//! The commands `run` and `moves`: a program runs on the processor, by a script, a seed or the fixed rule.
#![tactic(auto)]

mod by_rule;
mod by_script;
mod by_seed;
mod closing;
mod run;
mod tail;

pub use run::{run_processor, run_ready};
pub use tail::Tail;
