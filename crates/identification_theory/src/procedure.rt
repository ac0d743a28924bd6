//! The procedure as a relation between a graph, an effect and its formula, and the derivations of these formulas.

ghost use Rattle.identification_theory.specs.Laws.{FormulaIsAccepted};

/// What follows from the procedure's definition: each formula that it answers has a derivation that
/// is accepted.
pub fn laws()
    ensures accepted { FormulaIsAccepted }
{}
