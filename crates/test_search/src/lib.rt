//! Tests of the search through a graph.
#![tactic(auto)]

#[cfg(test)]
mod ladder;
#[cfg(test)]
mod searches;
