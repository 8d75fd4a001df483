//! The sidings, which hold operations while they are computed beside the pipes.
#![tactic(auto)]

mod access;
mod siding;
mod sidings;
mod words;

pub use cf_bind::Op;
pub use sidings::Sidings;
