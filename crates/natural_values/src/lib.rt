//! The factors of which values over counts of nested effects are made, those of natural direct and indirect effects.
//!
//! `natural_factors(alloc, formula, given)` gives the factors of a formula, and `laws` what their values say over counts.
#![tactic(auto)]

mod factors;
mod naming;
mod theory;

pub use factors::natural_factors;
pub use naming::{free_in_factors, mentioned_in_factors};
pub use theory::laws;
