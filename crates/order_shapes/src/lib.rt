//! What holds for each state to which lists of moves lead: it has the shape of the layout, and its instructions can be
//! encoded.
#![tactic(auto)]

pub mod laws;
