//! What a wrong list of moves is, and that the table of moves allows none.
#![tactic(auto)]

pub mod laws;
