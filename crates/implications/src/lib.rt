//! The testable implications of a graph: the pairs of vertices that some set separates, and are so independent given it.
//!
//! `implications(alloc, &graph)` gives each such pair once, sorted, with one such set.
#![tactic(auto)]

mod links;
mod pairs;
mod sets;
mod theory;

pub use pairs::{Implication, implications};
pub use theory::laws;
