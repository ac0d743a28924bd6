//! What is found for an interventional effect.

use prob_expr::Formula;

/// Formulas without interventions for the two effects of which an interventional effect is made: P(m | do(x), z), which is read with x at its
/// second value, and P(y | do(x, m), z). Their product, summed over m, is the interventional effect.
#[derive(Drop)]
pub struct Interventional {
    pub mediators: Formula,
    pub outcome: Formula,
}
