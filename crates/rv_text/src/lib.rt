//! The assembly text of an instruction, written and read back; and the lines, pieces and numbers of any text.
#![tactic(auto)]

mod fields;
pub mod laws;
mod lines;
mod mnemonic;
mod numbers;
mod operands;
mod pieces;
mod reading;
mod registers;
mod statement;
mod tables;
mod text_err;
mod text_line;
mod writing;

pub use fields::{number_in, register_in};
pub use lines::{cut_at, cut_line};
pub use mnemonic::Mnemonic;
pub use numbers::{numeral, read_number};
pub use pieces::{count_operands, find_byte, operand, split_name, trim};
pub use reading::{read_instr, read_statement, read_statement_of};
pub use registers::read_register;
pub use statement::{Jump, Statement, distance};
pub use tables::look_up;
pub use text_err::TextErr;
pub use text_line::TextLine;
pub use writing::write_instr;
