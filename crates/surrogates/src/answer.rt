//! What is found for an effect over experiments.

use counter_models::CounterPair;
use do_derivation::Derivation;
use hedge::Hedge;
use mixed_graph::VSet;
use prob_expr::Formula;

/// The hedge at which a district's factor stops under all experiments that leave the district alone at
/// once, and two models that agree on all observations and under each experiment, and differ on the
/// effect.
#[derive(Drop)]
pub struct CommonHedge {
    pub hedge: Hedge,
    pub pair: CounterPair,
}

/// What is found for P(y | do(x)) over some experiments.
#[derive(Drop)]
pub enum Surrogate {
    /// A formula whose terms are observed or under one of the experiments, and the steps of the
    /// do-calculus that turn the effect into it.
    Formula(Formula, Derivation),
    /// A district whose factor stops without experiment and under each that leaves it alone; the
    /// hedge at which it stops without experiment, and two models that agree on all observations
    /// and differ on the effect. Where the factor stops too under all these experiments at once,
    /// `common` is the hedge at which it does.
    Stopped {
        district: VSet,
        hedge: Hedge,
        pair: CounterPair,
        common: Option<CommonHedge>,
    },
}
