//! The command `check`: a layout is written to the output in its canonical form.
#![tactic(auto)]

mod check;

pub use check::check_layout;
