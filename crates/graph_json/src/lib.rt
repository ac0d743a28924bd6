//! Graphs as JSON: their edges by the names of the vertices.
//!
//! `push_graph(&mut object, &names, &graph)` writes `{"directed":[["X","M"]],"bidirected":[["X","Y"]]}`, and `push_edges` the members of this
//! object into another.
#![tactic(auto)]

mod edges;

pub use edges::{push_edges, push_graph};
