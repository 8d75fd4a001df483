//! The command `asm`: an assembly source becomes an ELF file.
#![tactic(auto)]

mod asm;
mod assembling;

pub use asm::assemble_program;
pub use assembling::file_of;
