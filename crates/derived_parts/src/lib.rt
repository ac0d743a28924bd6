//! Formulas of districts with their derivations, and whether these are accepted.
//!
//! `check_parts(alloc, &graph, &districts, &parts)` accepts one part for each district, or says the first fault.
#![tactic(auto)]

mod checking;
mod fault;
mod part;

pub use checking::check_parts;
pub use fault::PartsFault;
pub use part::DerivedPart;
