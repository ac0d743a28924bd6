//! Why an effect among the treated has no formula: a hedge for the joint effect on the outcome and what else was observed.
#![tactic(auto)]

mod theory;

pub use theory::laws;
