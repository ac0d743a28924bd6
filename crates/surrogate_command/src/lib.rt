//! The command `surrogate`.
#![tactic(auto)]

mod answer;
mod form;
mod parts;
mod reply;
mod request;
mod sets;

pub use answer::Answer;
pub use form::{Form, Writing};
pub use reply::{surrogate_answer, surrogate_reply};
pub use request::{ROW, Request};
pub use sets::SurrogateSets;
