//! The definition of the counterflow pipeline processor: its states, its moves, its runs, and the claims about them.
//! The only code here is the event of a move.
#![tactic(auto)]

mod event;

pub use event::Event;
