//! How the memory of a program differs from the memory as it was loaded, as a value.
#![tactic(auto)]

mod changes;
mod image;
mod laws;
mod making;
mod updating;

pub use changes::{Change, Changes};
pub use image::Image;
