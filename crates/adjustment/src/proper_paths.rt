//! Proper causal paths, and the graph without their first edges.
//!
//! `proper_causal(&graph, x, y)` is that graph.
mod proper;

pub use proper::{back_door_graph, proper_causal};
