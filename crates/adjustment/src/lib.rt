//! The adjustment criterion and the back-door criterion, with the formula that they allow.
//!
//! `adjusts(&graph, x, y, z)` says whether z may be adjusted for, and `formula_for(alloc, x, y, z)` is the formula that it then allows.
#![tactic(auto)]

mod criteria;
mod formulas;
mod parts;
pub mod proper_paths;
mod theory;

pub use criteria::{AdjFault, adjusts, back_door};
pub use formulas::formula_for;
pub use theory::laws;
