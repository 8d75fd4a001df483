//! The command `debug`: a session of the debugger, whose commands are the input.
#![tactic(auto)]

mod closing;
mod debug;

pub use debug::debug_program;
