//! The command `adjust`: whether a set may be adjusted for, or the minimal sets that may.
#![tactic(auto)]

mod answer;
mod choosing;
mod criteria;
mod listing;
mod objects;
mod query;
mod reply;
mod request;
mod set_lines;
mod texts;

pub use answer::Answer;
pub use criteria::{Verdict, judge};
pub use query::Query;
pub use reply::{adjust_answer, adjust_reply};
pub use request::{ROW, Request};
