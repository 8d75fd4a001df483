//! Timed schedules: each move takes a number of ticks, by its kind and the class of its instruction, and the move that
//! finishes earliest is made next.
#![tactic(auto)]

mod answer;
mod class_at;
mod clock;
mod delays;
mod draws;
mod due_moves;
mod found_moves;
pub mod laws;
mod least;
mod looking;
mod making_due;
mod move_lines;
mod options;
mod picking;
mod putting;
mod reaching;
mod reading;
mod run;
mod soonest;
mod span;
mod step;
mod timed_move;
mod watcher;

pub use answer::{Timed, TimedRun};
pub use clock::Clock;
pub use delays::{Delays, kind_place};
pub use draws::DelayDraws;
pub use move_lines::MoveLines;
pub use options::TimedOptions;
pub use reaching::port;
pub use reading::{MOST_DELAYS, read_delays};
pub use run::{run_shown, run_timed, run_watched};
pub use run_scripts::{DelayErr, DelayKind};
pub use span::Span;
pub use timed_move::TimedMove;
pub use watcher::{Unwatched, Watcher};
