//! What identification answers for an effect among the treated.

use prob_expr::Formula;

/// Why there is no formula: a treatment, and a child of it to which it is joined by bidirected edges.
#[derive(Drop)]
pub struct Confounding {
    pub treatment: u8,
    pub child: u8,
    /// The vertices after the child on a path of bidirected edges that ends at the treatment.
    pub path: Vec<u8>,
}

/// What identification answers for P(y under do(x) | x and z as observed).
#[derive(Drop)]
pub enum Treated {
    /// A formula without interventions, over names and primed names.
    Formula(Formula),
    /// A treatment that is confounded with a child of its own.
    Confounded(Confounding),
}
