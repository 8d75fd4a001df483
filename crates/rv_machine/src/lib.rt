//! The sequential machine: RV32I or RV32IM, one instruction at a time, and its environment calls.
#![tactic(auto)]

mod calling;
mod decode_cache;
mod executing;
mod flat;
mod flat_acting;
mod flat_lines;
mod instruction_sets;
mod machine;
mod outcome;
mod quiet;
mod serving;
mod stepping;

pub use machine::{Machine, MachineParts};
pub use outcome::{Retired, Served, Stepped};
pub use serving::serve;
