//! The top call of the simulator: it carries out what the arguments of the command line ask for, and gives a status and
//! a report.
#![tactic(auto)]

mod help;
mod top;

pub use cli_files::{DelaysFault, ProgramErr, ScriptFault, Status, TraceFault, Which};
pub use top::cfpp;
