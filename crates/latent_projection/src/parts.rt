//! The observed part of a graph as a value.

use mixed_graph::{Graph, Names};

/// The observed part of a graph: name k is that of vertex k.
#[derive(Drop)]
pub struct Observed {
    pub names: Names,
    pub graph: Graph,
}
