//! Steps, lemmas and derivations.

use crate::moves::Move;
use mixed_graph::VSet;

/// A step that turns one expression into another of the same value.
#[derive(Drop)]
pub enum Step {
    /// A move, on the expression itself.
    Make(Move),
    /// The step on the child of that number.
    At(u32, Box<Step>),
    /// The steps in turn.
    Then(Vec<Step>),
}

/// That P(set | do(V - set)) is the definition of the lemma's number, by the step.
#[derive(Drop)]
pub struct Lemma {
    pub set: VSet,
    pub step: Step,
}

/// The lemmas for the definitions of a formula, and the step that makes its main of the target's term.
#[derive(Drop)]
pub struct Derivation {
    pub lemmas: Vec<Lemma>,
    pub main: Step,
}
