//! Layout files: the TOML text of a layout, read and written.
#![tactic(auto)]

mod classes;
mod fault;
mod format;
mod kinds;
pub mod laws;
mod reading;
mod tables;
mod writing;

pub use classes::class_name;
pub use fault::FileErr;
pub use reading::{MOST_LAYOUT, read_layout, read_layout_loosely};
pub use texts::Name;
pub use writing::write_layout;
