//! Separation as independence, and the three rules of the do-calculus.
//!
//! `rule2(&graph, x, y, z, w)` says whether z may be observed in place of being done.
#![tactic(auto)]

pub mod cuts;
mod rules;
mod theory;

pub use rules::{Rule, are_four_sets, are_three_sets, independence, rule1, rule2, rule3};
pub use theory::laws;
