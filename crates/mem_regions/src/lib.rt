//! The memory of a program: regions of bytes with their permissions, the code as it is fetched, and the program break.
#![tactic(auto)]

mod access;
mod comparing;
mod fetching;
mod lending;
mod loading;
mod numbers;
mod part;
mod program_break;
mod refusal;
mod region;
mod regions;
mod undoing;
mod window;

pub use access::MemErr;
pub use part::Part;
pub use refusal::LoadErr;
pub use regions::Regions;
pub use window::Window;
