//! Tests of public calls of the memory, the sequential machine, the processor and its parts, with one file for each
//! crate: a crate that has tests of its own is proved a second time with them.
#![tactic(auto)]

#[cfg(test)]
mod ends;
#[cfg(test)]
mod instructions_on_the_way;
#[cfg(test)]
mod lines;
#[cfg(test)]
mod machine;
#[cfg(test)]
mod memory;
#[cfg(test)]
mod passengers;
#[cfg(test)]
mod processor;
#[cfg(test)]
mod programs;
#[cfg(test)]
mod scripts;
#[cfg(test)]
mod sidings;
#[cfg(test)]
mod stages;
