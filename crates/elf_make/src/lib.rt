//! The writer of ELF files: an assembled program as a little-endian 32-bit executable for RISC-V.
#![tactic(auto)]

mod binding;
mod fields;
mod headers;
mod section;
mod sizes;
mod symbols;
mod writing;

pub use writing::write_elf;
