//! The command `list`: the listing of a program is written to the output.
#![tactic(auto)]

mod listing;

pub use listing::list_program;
