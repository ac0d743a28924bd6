//! Expressions held with the steps that led to them, and how steps make them shorter.
//!
//! `started(alloc, &graph, &target, false)` holds a target's term, and `held.try_step(alloc, &graph, place, step)` does
//! a step where it isn't refused. `adjusted`, `planned` and `replayed` are lists of such steps.
#![tactic(auto)]

mod adjusting;
mod candidate;
mod citing;
mod held;
mod joins;
mod leaves;
mod moves;
mod orders;
mod parts;
mod planning;
mod replaying;
mod terms;
mod wholes;

pub use candidate::Candidate;
pub use citing::PutIn;
pub use held::Held;
pub use parts::{Term, term_at};
pub use replaying::replayed;
pub use wholes::{adjusted, plain, planned, started};
