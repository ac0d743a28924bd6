//! Effects over surrogate experiments (Bareinboim and Pearl 2012): a formula for P(y | do(x)) from
//! what is observed and from trials on other variables, or the district that no experiment frees.
//!
//! `identify_with(alloc, &graph, x, y, &experiments)` gives the one or the other.
#![tactic(auto)]

mod answer;
mod blocking;
mod gathering;
mod identifying;
pub mod theory;
mod tries;

pub use answer::{CommonHedge, Surrogate};
pub use identifying::{are_experiments, identify_with};
