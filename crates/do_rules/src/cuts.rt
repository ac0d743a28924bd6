//! Graphs with edges cut out, as the rules of the do-calculus need them.
//!
//! `cut_into(&graph, set)` is the graph without the arrowheads into a set.
mod cuts;
mod rows;

pub use cuts::{EdgeSet, cut_edges, cut_into, cut_out};
