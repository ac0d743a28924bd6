//! The command `rule`: whether a rule of the do-calculus holds, in the observed graph.
mod answer;
mod parts;
mod reply;
mod request;
mod sides;

pub use answer::Answer;
pub use reply::{rule_answer, rule_reply};
pub use request::{ROW, Request};
