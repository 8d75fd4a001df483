//! The assembler accepts every drawn program.
#![tactic(auto)]

pub mod laws;
