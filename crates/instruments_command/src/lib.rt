//! The command `instruments`: which vertices are conditional instruments for an effect, and in which strata.
#![tactic(auto)]

mod answer;
mod objects;
mod reply;
mod request;
mod texts;

pub use answer::Answer;
pub use reply::{instruments_answer, instruments_reply};
pub use request::{ROW, Request};
