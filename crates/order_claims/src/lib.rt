//! The lists of moves in the table without a rule, when one is wrong, and what holds for all of them.
#![tactic(auto)]

pub mod laws;
mod wrong_kind;

pub use wrong_kind::WrongKind;
