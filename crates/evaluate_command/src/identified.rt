//! An effect that has a formula.

use prob_expr::{Formula, Target};

/// An effect that has a formula: its target P(y | do(x), given), and a formula for that. It keeps no graph.
#[derive(Drop)]
pub struct Identified {
    pub target: Target,
    pub formula: Formula,
}
