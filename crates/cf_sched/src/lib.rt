//! The schedules of a run: scripts, policies, and the rules by which Issue is offered.
#![tactic(auto)]

mod drawn;
pub mod laws;
mod offer;
mod pace;
mod policy;
mod round;

pub use drawn::Drawn;
pub use pace::Pace;
pub use policy::Policy;
pub use round::Round;
pub use run_scripts::{Script, ScriptErr, ScriptKind, Words, read_move, write_move};
