//! The arguments of the command line: what they ask for, or the first unexpected one.
#![tactic(auto)]

mod amounts;
mod command;
mod names;
mod numbers;
mod options;
mod reading;
mod shown;

pub use command::{
    Command, DEFAULT_LIMIT, LayoutArgument, MachineOptions, OrdersOptions, RunOptions, TimeOptions,
    read_arguments,
};
pub use names::CommandName;
pub use options::{Key, Schedule};
pub use order_rules::Rule;
pub use run_options::{GuessRule, Reporting, Show, TimeShow};
