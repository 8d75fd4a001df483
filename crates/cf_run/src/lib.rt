//! Runs of the processor: move after move, until the program, the limit or the schedule ends them.
#![tactic(auto)]

mod counting;
mod drawing;
mod facts;
mod finished;
pub mod laws;
mod making;
mod options;
mod policy;
mod rule;
mod script;
mod showing;
mod sweep;
mod turning_over;

pub use counting::count;
pub use drawing::run_drawn;
pub use facts::known;
pub use finished::over;
pub use making::make_and_show;
pub use options::PolicyOptions;
pub use policy::run_policy;
pub use rule::run_rule;
pub use run_finishes::{Ran, Scripted};
pub use run_options::{Reporting, Show};
pub use script::run_script;
