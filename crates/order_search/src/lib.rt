//! A breadth-first search of a graph whose nodes are byte strings, for the first path that ends in a fault.
#![tactic(auto)]

mod breadth_first;
mod chains;
mod graph;
mod node_list;
mod orders;
mod reached;
mod rows;
mod trail;

pub use breadth_first::{SearchAnswer, search};
pub use graph::{Edge, Graph};
pub use orders::Orders;
pub use reached::{NumberedEdge, Reached};
