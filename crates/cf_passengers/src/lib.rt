//! What an instruction does on its way up the pipe, from its issue to its retirement.
#![tactic(auto)]

mod asking;
mod finishing;
mod guessing;
mod issuing;
mod launching;
pub mod loose;
mod reading;
mod retiring;
mod stopping;
mod templates;

pub use asking::{RequestedSources, requests};
pub use finishing::{answered, finish, quits, recover, trap};
pub use guessing::{goto, guessed, may_guess};
pub use issuing::{blank, fetched, isa_of, issue};
pub use launching::{launch_trap, operation};
pub use reading::{first_missing, instruction, kind, missing, value_in};
pub use retiring::{leaving, retirement};
pub use stopping::{launches, recovers, stops_at};
pub use templates::{Template, Templates};
