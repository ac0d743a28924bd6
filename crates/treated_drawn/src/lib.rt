//! The effect among those for whom values were observed, in the models of a diagram with hidden vertices.
#![tactic(auto)]

mod theory;

pub use theory::laws;
