//! The command `orders`: all orders of the first moves of a program are compared with the sequential machine.
#![tactic(auto)]

mod command;
mod counts;
mod edges;
mod found;
mod script;
mod seen;
mod wrong;

pub use command::search_program;
