//! The instructions of RV32I with FENCE.I and the M extension: words to instructions and back, and what an instruction
//! computes.
#![tactic(auto)]

mod accesses;
mod arithmetic;
mod classes;
mod decoding;
mod encoding;
mod fields;
mod instruction;
mod isa;
pub mod laws;
mod opcodes;
mod operands;
mod packing;
mod ranges;

pub use accesses::{Access, access_of, extend};
pub use arithmetic::{alu, is_taken, next_of};
pub use classes::{Class, class_of};
pub use decoding::{decode, decode_m};
pub use encoding::encode;
pub use instruction::{Cond, ImmOp, Instr, LoadKind, MulOp, RegOp, StoreKind};
pub use isa::{Isa, decode_as};
pub use operands::{dest, sources};
pub use ranges::fits;
