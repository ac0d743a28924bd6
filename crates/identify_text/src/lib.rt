//! The printed answers of identification: a formula, or a hedge with its two models.
#![tactic(auto)]

mod bits;
mod formulas;
mod hedges;
mod models;
mod pairs;
mod parts;

pub use bits::vertex_name;
pub use formulas::{answer_in, effect_text, free_beside};
pub use hedges::{entry, hedge_heading, push_hedge_sets};
pub use pairs::{hedge_answer, joint_answer, push_models};
