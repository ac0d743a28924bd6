//! The command `evaluate --natural`: what y would be under do(x), were mediators as under another value of x, at each first and each second
//! level of x, of what is given and of y, from counts of observations.
//!
//! `identify_nested(alloc, &diagram, &asked)` finds a formula for the effect, or the answer for which no counts are read, which
//! `first_reply` tells. `nested_reply` tells the values over counts.
#![tactic(auto)]

mod answer;
mod evaluating;
mod first;
mod identified;
mod lines;
mod objects;
mod others;
mod reply;
mod request;

pub use answer::Answer;
pub use first::{First, first_reply, identify_nested};
pub use identified::Identified;
pub use reply::{long_counts, nested_reply};
pub use request::Request;
