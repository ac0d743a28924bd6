//! The command `check`, of certificates in parts too: whether the parts of a certificate make up the counterfactual effect that it names; and of any other
//! certificate what `check_command` answers.
//!
//! `accept_experiments(alloc, &diagram, &experiments)` answers on the diagram alone, and `check_reply(alloc, &diagram, &experiments, certificate, format)`
//! on the bytes of a certificate.
#![tactic(auto)]

mod accepting;
mod answer;
mod counting;
mod fault;
mod nested;
mod objects;
mod reply;
mod request;
mod texts;
mod treated;

pub use accepting::accept_experiments;
pub use answer::Answer;
pub use fault::Fault;
pub use reply::{check_answer, check_reply, long_certificate};
pub use request::read_request;
