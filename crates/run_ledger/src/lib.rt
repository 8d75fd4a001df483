//! What the time of a run consists of: a ledger of its moves, and timed runs for which a ledger is kept.
#![tactic(auto)]

mod breakdown;
mod charging;
mod gaps;
mod latencies;
pub mod laws;
mod ledger;
mod mark;
mod places;
mod run;
mod run_ledger;
mod uses;

pub use breakdown::Breakdown;
pub use run::run_noted;
pub use run_ledger::RunLedger;
