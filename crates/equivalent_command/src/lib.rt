//! The command `equivalent`: whether two graphs imply the same separations among their observed vertices, in which no edge is bidirected.
//!
//! `accept_first(alloc, &diagram, &asked)` answers on the first diagram alone, and `equivalent_reply(alloc, &diagram, sets, second, format)`
//! on both.
#![tactic(auto)]

mod accepting;
mod agreement;
mod answer;
mod faults;
mod numbers;
mod objects;
mod refusals;
mod reply;
mod request;
mod second;
mod texts;

pub use accepting::{Acceptance, accept_first};
pub use answer::Answer;
pub use reply::{equivalent_answer, equivalent_reply, long_second_graph};
pub use request::{Query, ROW, Request};
pub use second::SecondFault;
