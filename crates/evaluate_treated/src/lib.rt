//! The command `evaluate --treated`: what y would be under do(x) among those for whom x was observed, at each level of x as it is set and as it
//! was observed, of what is given and of y, from counts of observations. Where the effect has no formula by a path, its values are had by two
//! levels of x, from the formula of the joint effect.
//!
//! `identify_among(alloc, &diagram, &asked)` finds a formula, or the answer for which no counts are read, which `first_reply` tells.
//! `among_reply` tells the values over counts.
#![tactic(auto)]

mod answer;
mod evaluating;
mod first;
mod identified;
mod levels;
mod lines;
mod objects;
mod others;
mod reply;
mod request;

pub use answer::{AmongValues, Answer, NoModel};
pub use first::{First, first_reply, identify_among};
pub use identified::{Identified, Way};
pub use reply::{among_reply, long_counts};
pub use request::Request;
