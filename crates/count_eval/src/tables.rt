//! Formulas over counts, prepared to be evaluated at many cells.
//!
//! `prepare(alloc, n, &formula, &counts)` makes the tables, and `prepared.value(at)` gives the value at a cell.
mod evaluating;
mod prepared;
mod table;
mod tables;
mod terms;

pub use crate::{EvalFault, is_cell, is_evaluable};
pub use evaluating::value;
pub use prepared::{Prepared, prepare};
