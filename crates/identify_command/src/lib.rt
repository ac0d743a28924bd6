//! The command `identify`.
#![tactic(auto)]

mod answer;
mod conditional;
mod form;
mod reply;
mod request;
mod theory;

pub use answer::Answer;
pub use form::Form;
pub use reply::{identify_answer, identify_reply};
pub use request::{ROW, Request};
pub use theory::laws;
