//! What is found for an effect under a condition.

use counter_models::CounterPair;
use do_derivation::{Derivation, Step};
use hedge::Hedge;
use mixed_graph::VSet;
use prob_expr::Formula;

/// What is found for P(y | do(x), given).
///
/// Where a joint effect is answered, no formula without interventions equals P(y | do(x), given)
/// (Shpitser and Pearl 2006).
#[derive(Drop)]
pub enum Conditional {
    /// A formula for the effect without interventions, and the steps of the do-calculus that turn the effect into it.
    Formula(Formula, Derivation),
    /// The joint effect of `x` on `y` into which the observations turn: `x` has those that became
    /// interventions, `y` those that are left. It has a hedge, and two models that agree on all
    /// observations and differ on it. Where `settled`, no observation is left, or those that are left
    /// have an effect that is known: then the two models differ on the target too. Elsewhere two other
    /// models do, which aren't built.
    Joint {
        x: VSet,
        y: VSet,
        settled: bool,
        hedge: Hedge,
        pair: CounterPair,
    },
}

/// What the observations turn into.
#[derive(Drop)]
pub struct Turned {
    /// The interventions, with the observations that became ones.
    pub doing: VSet,
    /// The observations that are left.
    pub left: VSet,
    /// The steps of the moves, in turn.
    pub steps: Vec<Step>,
}
