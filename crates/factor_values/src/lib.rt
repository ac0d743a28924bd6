//! Values over counts of a sum of a product of factors, each of which reads some vertices at a second level.
//!
//! `value_of(&reading)` gives the value at the cells of both levels, or the first operand that has none.
#![tactic(auto)]

mod evaluating;
mod factors;
mod steps;
mod theory;

pub use evaluating::{Reading, value_of};
pub use factors::{Factor, Factors};
pub use theory::laws;
