//! Text output: hexadecimal digits, names, and a page of lines with numbers, words, registers, traps and retired
//! instructions.
#![tactic(auto)]

mod bytes;
mod hexadecimal;
mod name;
mod page;
mod retirement;

pub use bytes::is_ascii;
pub use hexadecimal::{hex_digit, hex8};
pub use name::Name;
pub use page::Page;
pub use retirement::retirement_line;
