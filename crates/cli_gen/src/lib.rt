//! The command `gen`: the text of a program that is drawn from a number is written to the output, or is assembled and
//! run.
#![tactic(auto)]

mod drawn;

pub use drawn::{put_drawn, run_drawn};
