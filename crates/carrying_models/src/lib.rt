//! Pairs of models that agree on what is observed and differ on a nested counterfactual.
#![tactic(auto)]

mod theory;

pub use theory::laws;
