//! The command `bounds`: what the effect of x on y is at least and at most, from counts of observations, where it may have no formula.
#![tactic(auto)]

mod answer;
mod asking;
mod deciding;
mod faults;
mod first;
mod lines;
mod objects;
mod reply;
mod request;
mod way;

pub use answer::Answer;
pub use asking::question_of;
pub use faults::BoundsFault;
pub use first::{QuestionOrReply, Unmet, ask_first};
pub use reply::{bounds_reply, long_counts};
pub use request::{ROW, Request};
pub use way::Way;
