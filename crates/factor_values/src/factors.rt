//! Factors that read some vertices at a second level.

use mixed_graph::VSet;
use prob_expr::Formula;

/// A formula, and the vertices that it reads at their second levels.
#[derive(Drop)]
pub struct Factor {
    pub second: VSet,
    pub formula: Formula,
}

/// The product of factors, summed over a set; over P(given).
#[derive(Drop)]
pub struct Factors {
    pub summed: VSet,
    pub factors: Vec<Factor>,
    pub given: VSet,
}
