//! Dense tables of counts, read from CSV: a count for each combination of levels of the used vertices, and sums over them.
//!
//! `read_counts(alloc, text, &names, used, count_column)` gives the table, and `marginal(&counts, of, at)` a sum over it.
#![tactic(auto)]

mod cells;
mod codes;
mod counts;
pub mod lane_sums;
mod reading;
pub mod sum_tables;

pub use count_rows::CountFault;
pub use counts::{Counts, marginal};
pub use reading::read_counts;
