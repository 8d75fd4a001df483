//! The command `rounds`: a program runs on the processor in rounds, as on a clocked one.
#![tactic(auto)]

mod closing;
mod rounds;

pub use cf_rounds::RoundsOptions;
pub use rounds::run_in_rounds;
