//! The report of a run: retired instructions, moves, counts, registers, and a picture of the processor.
#![tactic(auto)]

mod beside;
mod gathered;
mod lines;
mod passengers;
mod picture;
mod progress;
mod putting;
mod report_sink;
mod stages;
mod tally;

pub use beside::{any_siding_page, cache_page, fetch_page, lane_page, put_fetch, put_siding};
pub use gathered::Gathered;
pub use lines::{move_number, put_move, put_registers, put_retired, put_tally, register_page};
pub use picture::put_picture;
pub use progress::{is_step, put_machine_progress, put_moves_progress, put_rounds_progress};
pub use report_sink::ReportSink;
pub use stages::{any_stage_page, put_stage};
pub use tally::Tally;
