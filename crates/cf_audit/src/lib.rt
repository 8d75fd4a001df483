//! An audit of a recorded trace: its moves are made again, and each byte of what they show is compared with it.
#![tactic(auto)]

mod answer;
mod auditing;
mod common;
mod compared;
mod first_line;
pub mod laws;
mod stop;

pub use answer::Audit;
pub use auditing::{MOST_TRACE, audit};
pub use run_scripts::TraceKind;
