//! A formula of a district with its derivation.

use do_derivation::Derivation;
use mixed_graph::VSet;
use prob_expr::Formula;

/// A district, a formula for P(district | do(all other vertices)), and the derivation that is to show that it is one.
#[derive(Drop)]
pub struct DerivedPart {
    pub district: VSet,
    pub formula: Formula,
    pub derivation: Derivation,
}
