//! The M extension of RISC-V: products and quotients, and with them the value of each instruction.
#![tactic(auto)]

pub mod laws;
mod products;
mod values;

pub use products::product;
pub use values::value;
