//! What the commands that ask for the effect of x on y have in common: their answers by a formula and by a hedge,
//! and what is told of these.
#![tactic(auto)]

mod effects;
mod formulas;
mod hedges;
mod kept;
pub mod objects;

pub use effects::target_of;
pub use formulas::EffectFormula;
pub use hedges::{EffectHedge, has_arrays};
pub use kept::has_short_steps;
