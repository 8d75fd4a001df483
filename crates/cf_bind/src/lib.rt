//! What moves through the two pipes, instructions up and results down; what they do when they meet; and the moves.
#![tactic(auto)]

mod binding;
mod cell;
mod meeting;
mod move_line;
mod move_texts;
mod moves;
mod packet;
mod passenger;

pub use binding::Binding;
pub use cell::{Cell, Op};
pub use meeting::meet;
pub use move_line::MoveLine;
pub use move_texts::move_text;
pub use moves::{Bar, Move};
pub use packet::{Fetch, Packet};
pub use passenger::{End, Guess, Passenger};
