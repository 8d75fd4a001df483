//! The sequential machine after each of its first steps, as values.
#![tactic(auto)]

mod judging;
mod passing;
mod stepping;

pub use passing::{Waypoint, waypoints};
pub use stepping::NextStep;
