//! What `check` says of a certificate that isn't read or isn't accepted, as JSON.
//!
//! `certificate_fault(alloc, &fault)` gives the line of a fault, and `push_refused_derivation(object, &names, lemmas, &fault)` adds the members of a
//! refused step.
#![tactic(auto)]

mod certificates;
mod derivations;
mod hedges;

pub use certificates::{certificate_fault, certificate_size};
pub use derivations::push_refused_derivation;
pub use hedges::{push_met_hedge, push_refused_hedge};
