//! The generator of programs: an assembly program of a number of statements, drawn from that number.
#![tactic(auto)]

mod choice;
mod draws;
mod program;
mod statement;

pub use program::generate;
