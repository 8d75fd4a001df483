//! The nodes of a search through all orders as byte strings, each node as its own.
#![tactic(auto)]

mod beside;
mod bindings;
mod bits;
mod cells;
mod changes;
mod compound;
mod instructions;
pub mod laws;
mod lists;
mod node;
mod numbers;
mod operations;
mod pack;
mod passenger_flags;
mod passengers;
mod places;
mod results;
mod situation_parts;
mod situations;
mod stage_flags;
mod stages;
mod unread;

pub use beside::write_key_beside;
pub use node::{Node, read_key, write_key};
