//! The help text of each command.
#![tactic(auto)]

mod pages;
mod table;

pub use table::help_on;
