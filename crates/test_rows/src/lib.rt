//! Rows of worked calls, line by line: how the simulator is called, and the expected outcome.
#![tactic(auto)]

mod call;
mod content;
mod line_err;
mod matching;
mod sheet;

pub use call::{Call, CallOutcome, FailingCallNumbers, NamedBytes};
pub use line_err::LineErr;
pub use matching::Matching;
pub use sheet::{Sheet, Wanted};
