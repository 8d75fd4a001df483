//! The search through all orders of the moves of a program, where a rule of the table may be taken away: it finds the
//! first wrong list of moves, or the states that are reached.
#![tactic(auto)]

mod copying;
mod counting;
mod edges;
mod found;
mod graph;
mod reached;
mod ready;
mod replaying;
mod searching;
mod spans;
mod trial;

pub use found::{OrderCounts, OrdersFound, WrongOrder};
pub use graph::OrderGraph;
pub use reached::OrdersReached;
pub use searching::{search_loosely, search_orders};
