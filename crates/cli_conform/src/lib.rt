//! The command `conform`: the log of a circuit is compared with the processor.
#![tactic(auto)]

mod allowed;
mod closing;
mod command;
mod first_line;

pub use command::conform_log;
