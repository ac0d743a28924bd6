//! The identification of causal effects: the procedure as a relation, and what is true of its answers (Shpitser and Pearl 2006). Theory alone.
#![tactic(auto)]

pub mod answers;
pub mod procedure;
