//! The command `survey`.
#![tactic(auto)]

mod answer;
pub mod random_graph;
mod reply;
mod request;
mod tally;

pub use answer::Survey;
pub use reply::{survey, survey_reply};
pub use request::{ROW, Request};
pub use tally::Tally;
