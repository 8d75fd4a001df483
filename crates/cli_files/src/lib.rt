//! The files that the arguments of the command line name: what each of them holds, and the answer if one is missing or
//! is refused.
#![tactic(auto)]

mod answer;
mod images;
mod layouts;
mod lines;
mod loading;
mod loose_layouts;
mod opening;
mod parts;
mod programs;
mod run_files;
mod schedules;
mod scripts;
mod status;

pub use answer::{Answer, done, no_memory, no_program, unread, write_fault};
pub use images::ProgramImages;
pub use layouts::layout_at;
pub use lines::{bad_words, line};
pub use loading::{Loaded, LoadedImages, LooseImages, load, load_images, load_images_loosely};
pub use loose_layouts::loose_layout_at;
pub use opening::{MOST_BYTES, is_elf, open_again};
pub use programs::{open_image, program_at};
pub use report_refusals::{DelaysFault, ProgramErr, ScriptFault, TraceFault};
pub use run_files::{ReadyRun, read_files};
pub use schedules::ReadySchedule;
pub use status::{Status, Which};
