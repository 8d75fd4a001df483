//! Tests of public calls of streams, instructions, their texts, programs and their files, and command lines, with one
//! file for each crate: a crate that has tests of its own is proved a second time with them.
#![tactic(auto)]

#[cfg(test)]
mod assembler;
#[cfg(test)]
mod command_words;
#[cfg(test)]
mod digit_texts;
#[cfg(test)]
mod drawn_programs;
#[cfg(test)]
mod elf_files;
#[cfg(test)]
mod in_memory;
#[cfg(test)]
mod instruction_texts;
#[cfg(test)]
mod instructions;
#[cfg(test)]
mod listings;
#[cfg(test)]
mod multiplication;
#[cfg(test)]
mod source_refusals;
#[cfg(test)]
mod streams;
#[cfg(test)]
mod written_files;
