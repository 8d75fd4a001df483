//! How a run of the sequential machine or of the processor finishes.
#![tactic(auto)]

mod finish;

pub use finish::{Ran, Scripted};
