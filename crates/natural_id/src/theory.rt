//! What is proved of the formula.

ghost use Rattle.natural_id.specs.Parts.{NaturalFormulaIsRight, OneFormulaByParts};

/// What is proved of the formula.
pub fn laws()
    ensures right { NaturalFormulaIsRight }
    ensures one { OneFormulaByParts }
{}
