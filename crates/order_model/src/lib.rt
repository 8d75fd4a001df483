//! The table of moves with a rule taken away, as definitions and as functions over states.
#![tactic(auto)]

mod bars;
mod changing;
mod end_moves;
mod issuing;
mod laws;
mod listing;
mod meeting;
mod pipe_moves;
mod placing;
mod reading;
mod serving;
mod siding_moves;
mod siding_ops;
mod situation;
mod starting;
mod table;

pub use changing::{note_serial, note_step};
pub use listing::all_moves;
pub use order_rules::Rule;
pub use serving::{answer_to, output_of};
pub use siding_ops::SidingOps;
pub use situation::Situation;
