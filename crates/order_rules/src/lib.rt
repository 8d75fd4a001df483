//! The rules of the processor that can be taken away, one at a time, and their names.
#![tactic(auto)]

mod laws;
mod rule;

pub use rule::{Rule, kept};
