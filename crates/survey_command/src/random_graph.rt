//! A large graph made from a number, for surveys, and counts of edges.
//!
//! `survey_graph(seed)` is that graph.
mod count;
mod draws;
mod edges;
mod survey;

pub use count::{bidirected_count, directed_count};
pub use survey::survey_graph;
