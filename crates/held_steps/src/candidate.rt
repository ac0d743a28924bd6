use do_derivation::Derivation;
use prob_expr::Formula;

/// A formula, and a derivation that may lead to it.
#[derive(Drop)]
pub struct Candidate {
    pub formula: Formula,
    pub derivation: Derivation,
}
