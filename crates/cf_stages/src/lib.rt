//! The stages of the two pipes, and the single changes of their contents.
#![tactic(auto)]

mod changes;
mod comparing;
mod falling;
mod lending;
mod moving;
mod places;
mod stages;
mod words;

pub use cf_bind::Cell;
pub use falling::Fallen;
pub use stages::Stages;
pub use words::{has_bit, with_bit};
