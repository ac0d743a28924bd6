//! Identification of effects among those whose treatment was observed: a formula, or the treatment that is confounded with a child of its own.
//!
//! `treated(alloc, &graph, x, y, given)` gives the one or the other.
#![tactic(auto)]

mod answers;
mod expressions;
mod formulas;
mod identifying;
mod names;
mod pairs;
mod paths;
mod terms;
mod theory;

pub use answers::{Confounding, Treated};
pub use identifying::{acted_on, ancestors_of, treated};
pub use names::{names_of, prime_of};
pub use pairs::{Pair, confounded_pair};
pub use theory::laws;
