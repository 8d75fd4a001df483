//! Clocked rounds: at each tick the processor makes many moves, no two of which share a site.
#![tactic(auto)]

mod answer;
mod choosing;
mod firing;
pub mod laws;
mod options;
mod round_set;
mod running;

pub use answer::{Clocked, Fired};
pub use choosing::choose;
pub use firing::fire;
pub use options::RoundsOptions;
pub use round_set::RoundSet;
pub use running::run_rounds;
