//! The commands `graph`, `separate` and `rule`: the text of a graph, whether sets are separated in it, and whether a rule of the do-calculus holds.
#![tactic(auto)]

pub mod graph;
pub mod rule;
pub mod separate;
