//! A little-endian 32-bit ELF executable for RISC-V, viewed in place in its borrowed file.
#![tactic(auto)]

mod elf;
mod entries;
mod fields;
mod headers;
mod refusal;
mod sections;
mod segment;
mod segments;
mod symbols;

pub use elf::Elf;
pub use refusal::ElfErr;
pub use segment::Segment;
pub use segments::Segments;
pub use symbols::{LazySymbol, LazySymbols, Symbol, Symbols};
