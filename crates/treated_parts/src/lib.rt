//! Effects among the treated in parts: a formula for each district, which together make up the effect, whoever found them.
#![tactic(auto)]

mod theory;

pub use theory::laws;
