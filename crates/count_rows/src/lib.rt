//! The rows that are counted in a text of CSV: the levels of each used vertex, and each record as a row with its count.
//!
//! `read_rows(alloc, text, &names, used, count_column)` gives the levels and the rows of a table.
#![tactic(auto)]

mod digits;
mod fault;
mod fields;
mod header;
mod levels;
mod lines;
mod quoted;
mod reader;
mod rows;
mod tally;

pub use fault::CountFault;
pub use levels::Levels;
pub use rows::read_rows;
pub use tally::Tally;
