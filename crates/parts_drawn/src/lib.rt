//! Parts that are accepted make up a counterfactual effect in the models of a diagram with hidden vertices.
#![tactic(auto)]

mod theory;

pub use theory::laws;
