//! A derivation move by move: what each move makes, and the rule for which it asks, with the graph in which it does.
//!
//! `explain(alloc, &graph, &target, &derivation)` gives the parts of a derivation, those of its lemmas and then the main one.
#![tactic(auto)]

mod moves;
mod parts;
mod questions;
mod tracing;

pub use parts::{Part, explain};
pub use questions::{AskedRule, Question};
pub use tracing::Made;
