//! What folding needs of the graph.

use mixed_graph::{Graph, Order, VSet};

/// What folding a model needs of its graph: the order of the vertices, the projection on their own numbers, and for each cause the observed vertices that it reaches.
#[derive(Drop)]
pub struct Parts {
    pub order: Order,
    pub projection: Graph,
    pub reached: Vec<VSet>,
}
