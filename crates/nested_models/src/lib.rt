//! Nested counterfactuals, of which natural direct and indirect effects are made.
#![tactic(auto)]

mod theory;

pub use theory::laws;
