//! The command `evaluate`: the effect of x on y at each level of x and y, and of what is given, from counts of observations.
//!
//! `identify_first(alloc, &diagram, &asked)` finds a formula for the effect, or the answer for which no counts are read, which
//! `first_reply` tells. `evaluate_reply` tells the values of the formula over counts.
#![tactic(auto)]

mod adjusting;
mod answer;
mod breaks;
mod cells;
mod conditional;
mod evaluating;
mod faults;
mod first;
mod identified;
mod lines;
mod mentioned;
mod objects;
mod plain;
mod procedure;
mod reply;
mod request;
mod shown;
mod way;

pub use answer::{Answer, EffectValues, Valued, Values};
pub use cells::push_valued;
pub use faults::ValuesFault;
pub use first::{First, first_reply, identify_first};
pub use identified::Identified;
pub use lines::{pinned_lines, push_doing, push_given, sign_of};
pub use objects::push_levels;
pub use reply::{evaluate_answer, evaluate_reply, long_counts};
pub use request::{ROW, Request};
pub use shown::Shown;
pub use way::Way;
