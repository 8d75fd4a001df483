//! The listing of a program: each word of its code with its address, its instruction and its labels.
#![tactic(auto)]

mod labels;
mod listing;
mod order;
mod putting;
mod words;

pub use listing::{ListingErr, put_elf_listing, put_flat_listing};
pub use words::put_line;
