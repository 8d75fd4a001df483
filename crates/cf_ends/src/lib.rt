//! The ends of the pipes: the register file with its lane of requests, fetch, and the register cache at the bottom.
#![tactic(auto)]

mod cache;
mod ends;
mod lane;

pub use ends::Ends;
