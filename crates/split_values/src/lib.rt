//! Values over counts of effects among the treated, where the treatment has two levels and the joint effect has a formula.
//!
//! `value_of(&reading)` gives the value at the levels that are set and at those that were observed, none where it would be
//! below 0, or the first operand that has none.
#![tactic(auto)]

mod steps;
mod theory;
mod values;

pub use theory::laws;
pub use values::{Reading, value_of};
