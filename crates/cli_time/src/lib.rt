//! The command `time`: how long a program takes on each of some layouts, what that time is made of, and on which of
//! them it is least.
#![tactic(auto)]

mod choices;
mod class_lines;
mod comparing;
mod delay_files;
mod guest_input;
mod input_files;
mod layout_files;
mod leasts;
mod lines;
mod measuring;
mod reading;
mod site_lines;
mod stop;

pub use choices::RunChoices;
pub use comparing::compare_layouts;
pub use run_options::TimeShow;
