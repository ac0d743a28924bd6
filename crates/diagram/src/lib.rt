//! A diagram: the graph that was read and its observed graph, with the sets that the lists of a question name in it.
#![tactic(auto)]

mod diagram;
mod sets;

pub use diagram::Diagram;
pub use sets::{Marked, asked_condition, asked_effect, asked_query, asked_rule, set_of};
