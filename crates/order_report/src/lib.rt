//! The report of a state of the table of moves, where the state is a value: the counts of the moves that led to it, its
//! registers, and its picture.
#![tactic(auto)]

mod beside;
mod picture;
mod rest;

pub use rest::put_state_rest;
