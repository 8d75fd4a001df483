//! The report that closes a run, of the sequential machine or of the processor: how it finished, what retired, the
//! counts, the registers and the picture; and the moves that can be made where a run of the processor stopped.
#![tactic(auto)]

mod closing;
mod first_line;
mod moves;
mod parts;

pub use closing::{put_closing, put_closing_in_rounds, put_machine_closing};
pub use first_line::run_line;
pub use moves::{put_moves, put_standing};
