//! What identification answers for a nested effect.

use counter_models::CounterPair;
use hedge::Hedge;
use mixed_graph::VSet;
use prob_expr::Formula;

/// A district, the treatments that it reads at their second values, and the formula of P(district | do(all other vertices)).
#[derive(Drop)]
pub struct Part {
    pub district: VSet,
    pub second: VSet,
    pub formula: Formula,
}

/// The product of the parts, each with x at the values that it reads, summed over a set; over P(z).
#[derive(Drop)]
pub struct NaturalFormula {
    pub summed: VSet,
    pub parts: Vec<Part>,
}

/// A treatment, and a child of it that leads to y both through m and past it: a recanting witness.
#[derive(Clone, Copy)]
pub struct Witness {
    pub treatment: u8,
    pub child: u8,
}

/// A district that reads both values of a treatment: by a child of it that leads to y past m, and by one that leads there through m.
#[derive(Clone, Copy)]
pub struct Split {
    pub district: VSet,
    pub treatment: u8,
    pub first: u8,
    pub second: u8,
}

/// What identification answers for P(y[x, m[x']] | z): a formula, or why there is none.
#[derive(Drop)]
pub enum Natural {
    Formula(NaturalFormula),
    Witness(Witness),
    Split(Split),
    /// A hedge for P(y, z | do(x)), and its two models, which differ on the nested effect where both values of x are one.
    Hedge(Hedge, CounterPair),
}
