//! What identification answers.

use counter_models::CounterPair;
use do_derivation::{Derivation, Lemma, Step};
use hedge::Hedge;
use mixed_graph::VSet;
use prob_expr::{Expr, Formula};

/// What identification answers for P(y | do(x)) (Shpitser and Pearl).
#[derive(Drop)]
pub enum Answer {
    /// A formula for the effect without interventions, and the steps of the do-calculus that turn the effect into it.
    Formula(Formula, Derivation),
    /// A hedge, and two models that agree on all observations and differ on the effect.
    Hedge(Hedge, CounterPair),
}

/// What identification answers for P(y | do(x)) where a formula alone is wanted.
#[derive(Drop)]
pub enum FormulaAnswer {
    /// A formula for the effect without interventions.
    Formula(Formula),
    /// A hedge, and two models that agree on all observations and differ on the effect.
    Hedge(Hedge, CounterPair),
}

/// The factors of the districts: their definitions with the lemmas for these, and of each factor its expression and its steps.
#[derive(Drop)]
pub struct Factors {
    pub defs: Vec<Expr>,
    pub lemmas: Vec<Lemma>,
    pub values: Vec<Expr>,
    pub lists: Vec<Vec<Step>>,
}

/// Why there are no factors.
#[derive(Drop)]
pub enum Stop {
    /// The factor of the district `small` stops, inside `big`.
    At { small: VSet, big: VSet },
    NoMemory,
}
