//! The minimal admissible sets of an effect, listed without a walk over all subsets.
//!
//! `list(alloc, &graph, x, y, most, &mut steps)` gives them, sorted, each once.
#![tactic(auto)]

pub mod moral;
pub mod separators;
mod sets;
mod theory;

pub use crate::separators::{Listing, Steps};
pub use sets::list;
pub use theory::laws;
