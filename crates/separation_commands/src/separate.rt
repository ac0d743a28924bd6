//! The command `separate`: whether two sets are separated given a third, in the observed graph.
mod answer;
mod reply;
mod request;

pub use answer::Answer;
pub use reply::{separate_answer, separate_reply};
pub use request::{ROW, Request};
