//! The faults of graphs and of listed names as lines of JSON.
//!
//! `graph_fault(alloc, "graph", text, &fault)` gives the line of a fault with its byte, its line and its column.
#![tactic(auto)]

mod graphs;
mod lists;

pub use graphs::{graph_fault, graph_size};
pub use lists::target_fault;
