//! The command `steps`: what `check` answers of a certificate, and where that accepts a formula, its derivation move by move.
//!
//! `accept_experiments(alloc, &diagram, &experiments)` answers on the diagram alone, and `steps_reply(alloc, &diagram, &experiments, certificate, format)`
//! on the bytes of a certificate.
#![tactic(auto)]

mod accepting;
mod answer;
mod objects;
mod reply;
mod request;
mod texts;

pub use accepting::accept_experiments;
pub use answer::Answer;
pub use reply::{long_certificate, steps_answer, steps_reply};
pub use request::{ROW, read_request};
