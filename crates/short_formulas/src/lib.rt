//! Short formulas for identified effects, each with a derivation that the checker accepts.
//!
//! `shortened(alloc, &graph, &target, candidate)` gives in place of a right formula one that is right
//! too and no longer, and `identify_short(alloc, &graph, &target)` identifies and shortens.
#![tactic(auto)]

mod admitting;
mod by_parts;
mod candidates;
mod choosing;
mod depths;
mod hiding;
mod identifying;
mod lemma_sets;
mod listing;
mod measuring;
mod shortening;

pub use held_steps::Candidate;
pub use identifying::identify_short;
pub use measuring::length;
pub use shortening::{shortened, shortened_if};
