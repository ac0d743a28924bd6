//! Why an effect among the treated has no formula: a path of bidirected edges from a child of a treatment to the treatment.
#![tactic(auto)]

mod theory;

pub use theory::laws;
