//! Counts as JSON: the levels of a cell, and the faults of counts and of evaluations; and the words for counts that are refused.
//!
//! `push_cell(&mut object, &names, &counts, set, cell)` writes `[["X","low"],["Y","high"]]`.
#![tactic(auto)]

mod cells;
mod faults;
mod stops;

pub use cells::{push_cell, push_level, push_levels};
pub use faults::{count_fault, count_size};
pub use stops::evaluation_fault;
