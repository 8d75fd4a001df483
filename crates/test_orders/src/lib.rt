//! Tests of the public calls of the crates of all orders.
#![tactic(auto)]

#[cfg(test)]
mod node_keys;
