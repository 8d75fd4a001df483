//! Common to the commands that run the processor: the opened processor, the status of its run, and that it answers as
//! `machine` does.
#![tactic(auto)]

mod opening;

pub use opening::{Opened, no_moves, open};
