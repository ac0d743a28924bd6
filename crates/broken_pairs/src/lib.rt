//! The first of the pairs that a graph implies that counts break: no model of the graph has the counts then.
//!
//! `first_broken(alloc, &graph, &counts)` looks through the pairs of `implications` whose vertices all have levels in the table.
#![tactic(auto)]

mod broken;

pub use broken::{first_broken, is_apart};
