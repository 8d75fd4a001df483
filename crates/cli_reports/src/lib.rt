//! Common to the commands: the streams that a command borrows, the text that it writes to the output, and the closing
//! lines of its report.
#![tactic(auto)]

mod putting;
mod reporting;
mod run_status;
mod streams;

pub use putting::put_text;
pub use reporting::{Reported, put_answer, put_decided};
pub use run_status::status_of_run;
pub use streams::RunStreams;
