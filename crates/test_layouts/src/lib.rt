//! Tests of public calls of layouts and their files, with one file for each crate: a crate that has tests of its own is
//! proved a second time with them.
#![tactic(auto)]

#[cfg(test)]
mod layout_files;
#[cfg(test)]
mod layouts;
