//! The command `audit`: a recorded trace is checked, whoever made it.
#![tactic(auto)]

mod audit;
mod reports;
mod traces;

pub use audit::audit_trace;
