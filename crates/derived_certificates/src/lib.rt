//! Certificates of counterfactual effects in parts, which are accepted and read back.
//!
//! `treated_certificate(alloc, &graph, x, y, z)` gives that of an effect among the treated, and `natural_certificate(alloc, &graph, x, m, y, z)`
//! that of a nested effect. `certified_form(certificate, latex, json)` is the form of an answer of the commands that write these.
#![tactic(auto)]

mod certificates;
mod forms;
mod kept;

pub use certificates::{natural_certificate, treated_certificate};
pub use forms::certified_form;
