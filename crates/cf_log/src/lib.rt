//! A log of what a circuit did: it is taken from an input of any length and cut into lines, and each line is read.
#![tactic(auto)]

mod feed;
mod kind;
mod reading;
mod said;
mod subject;
mod time;

pub use feed::{LogFeed, NextLine};
pub use kind::{LogErr, LogKind};
pub use reading::read_line;
pub use said::{ObservedPart, Said, TimedLine};
pub use subject::subject_in;
pub use time::after_time;
