//! Identification of nested effects, of which natural direct and indirect effects are made: a formula, or why there is none.
//!
//! `natural(alloc, &graph, x, m, y, z)` gives the one or the other for P(y[x, m[x']] | z).
#![tactic(auto)]

mod answers;
mod identifying;
mod parts;
mod theory;
mod ways;

pub use answers::{Natural, NaturalFormula, Part, Split, Witness};
pub use identifying::{natural, witness_of};
pub use parts::split_in;
pub use theory::laws;
pub use ways::{leading_past, leading_through};
