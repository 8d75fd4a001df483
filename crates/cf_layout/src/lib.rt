//! Layouts of the processor: which stages compute which classes of instructions, and which of them are accepted.
#![tactic(auto)]

mod accepted_siding;
mod asked;
mod bits;
mod builtin;
mod checking;
mod class_set;
mod classes;
mod comparing;
pub mod laws;
mod laying;
mod layout;
mod listed;
mod loose_layout;
mod parts;
mod refusal;
mod stage_set;

pub use builtin::plain;
pub use checking::{check, check_loosely};
pub use classes::CLASSES;
pub use layout::Layout;
pub use listed::Listed;
pub use loose_layout::LooseLayout;
pub use parts::{Parts, Siding};
pub use refusal::LayoutErr;
