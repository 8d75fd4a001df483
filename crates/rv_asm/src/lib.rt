//! The assembler: a source in the assembly language of RV32IM, and the object that it represents.
#![tactic(auto)]

mod assembling;
mod draft;
mod item;
mod label;
mod label_table;
pub mod laws;
mod object;
mod operands;
mod operations;
mod pieces;
mod place;
mod pseudos;
mod reading;
mod refusal;
mod scanning;
mod sections;
mod strings;

pub use assembling::assemble;
pub use label::{Label, Labels};
pub use object::{Bytes, Object};
pub use refusal::{AsmErr, AsmKind};
pub use texts::Name;
