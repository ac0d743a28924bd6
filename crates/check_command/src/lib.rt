//! The command `check`: whether the derivation or the hedge of a certificate shows what it says of an effect.
//!
//! `accept_experiments::<Answer>(alloc, &diagram, &experiments)` answers on the diagram alone, and `check_answer(alloc, &seen, &experiments, certificate)`
//! on the bytes of a certificate. Commands above tell it, each with answers of its own beside these.
#![tactic(auto)]

mod accepting;
mod answer;
mod fault;
mod formula;
mod hedge_data;
mod lines;
mod objects;
mod reply;
mod request;

pub use accepting::{Acceptance, accept_experiments};
pub use answer::Answer;
pub use fault::{CertificateFault, refuse_certificate};
pub use reply::check_answer;
pub use request::{ROW, Request, optional_experiments};
