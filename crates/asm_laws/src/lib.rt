//! What an assembled program is: each line of the source denotes instructions or bytes at its address.
#![tactic(auto)]

pub mod laws;
