//! The command `machine`: a program runs on the sequential machine.
#![tactic(auto)]

mod closing;
mod machine;
mod running;

pub use machine::run_program;
