//! What is proved of the formulas of effects among the treated.

ghost use Rattle.treated_id.specs.Right.{FormulaIsRight};

/// The laws of these formulas.
pub fn laws()
    ensures right { FormulaIsRight }
{}
