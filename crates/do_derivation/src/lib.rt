//! Derivations in the do-calculus, and the checker that accepts them.
//!
//! `check(alloc, &graph, &target, &formula, &derivation)` says whether the derivation shows that the formula is the effect.
#![tactic(auto)]

mod applying;
mod checking;
mod copying;
mod factors;
mod faults;
mod moves;
mod product_moves;
mod rule_moves;
mod sound;
mod steps;
mod term_moves;

pub use checking::{apply, check, check_with};
pub use copying::{copy_move, copy_step};
pub use factors::{as_one, flat, has_product};
pub use faults::{ApplyFault, CheckFault, StepFault, StepPlace};
pub use moves::{BareMove, Move, SetMove};
pub use sound::laws;
pub use steps::{Derivation, Lemma, Step};
