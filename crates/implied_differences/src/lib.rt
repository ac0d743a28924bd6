//! How far a table of counts is from a testable implication: the cross differences of its counts, which are 0 where it holds exactly.
//!
//! `largest_difference(alloc, &counts, &implication)` gives the largest one, and where it is.
#![tactic(auto)]

mod blocks;
mod candidates;
mod cells;
mod largest;
mod layout;
mod reaching;
mod readable;
mod sets;
mod strips;
mod theory;

pub use largest::{Difference, largest_difference};
pub use readable::is_readable;
pub use theory::laws;
