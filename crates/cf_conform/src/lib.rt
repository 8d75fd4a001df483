//! The judgement of a circuit's log: the moves in it are made, and its observations are compared with the processor.
#![tactic(auto)]

mod answer;
mod comparing;
mod judging;
mod progress;
mod reading_on;
mod wanted;

pub use answer::Conformed;
pub use progress::{LatestRetired, LogProgress};
pub use reading_on::conform;
pub use wanted::wanted_line;
