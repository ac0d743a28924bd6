//! Nested effects, of which natural direct and indirect effects are made, in the models of a diagram with hidden vertices.
#![tactic(auto)]

mod theory;

pub use theory::laws;
