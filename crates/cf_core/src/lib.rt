//! The processor: every change of it is one local move.
#![tactic(auto)]

mod back;
mod before;
mod climbing;
mod counterflow;
mod draining;
mod falling;
mod fault;
mod issue_marks;
mod issuing;
mod keeping;
pub mod laws;
mod making;
mod marking;
mod marks;
mod masks;
mod moves;
mod old_number;
mod opening;
mod pipe_ends;
mod processor;
mod remarking;
mod riding;
mod rows;
mod same;
mod siding_ends;
mod siding_marks;
mod stations;
mod step;
mod touching;
mod undo;
mod weighing;

pub use cf_bind::{Cell, Op};
pub use cf_semantics::Event;
pub use cf_stages::Fallen;
pub use counterflow::Core;
pub use fault::Fault;
pub use issuing::Issuable;
pub use masks::Masks;
pub use step::Step;
pub use undo::Undo;
