//! The debugger: commands, one a line, that make moves of the processor, show it, and take moves back.
#![tactic(auto)]

mod answer;
mod carrying;
mod command;
mod command_source;
mod debugger_state;
mod driving;
mod feed;
mod help;
mod making;
mod pending;
mod reading;
mod replies;
mod ring;
mod session;
mod showing;

pub use answer::Debugged;
pub use ring::Ring;
pub use session::debug;
