//! Effects under a condition (Shpitser and Pearl 2006): a formula for P(y | do(x), given) from what
//! is observed, or the joint effect into which it turns, with a hedge for that.
//!
//! `identify_given(alloc, &graph, &target)` gives the one or the other.
#![tactic(auto)]

mod answer;
mod dividing;
pub mod hedges;
mod identifying;
pub mod theory;
mod turning;

pub use answer::Conditional;
pub use identifying::identify_given;
