//! Experiments as words list them, the sets that they name, and the line of an effect that they don't give.
#![tactic(auto)]

mod lines;
mod sets;
mod words;

pub use lines::unidentifiable_text;
pub use sets::experiment_sets;
pub use words::read_experiments;
