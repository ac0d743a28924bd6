//! What is true of the answers of the procedure: which vertices a formula names, its form and its depth, that there is one answer, and that a stop is a hedge.

ghost use Rattle.identification_theory.specs.AnswerLaws.{FormulaNamesAncestors, FormulaIsFormed, FormulaIsShallow, OneFormula, DerivedIsIdentified, OneDerivation, DerivationIsAccepted, OneStop, NeverBoth, StopIsHedge};

/// What follows from the procedure's definition, about each formula that it answers and each place
/// where it stops.
pub fn laws()
    ensures names { FormulaNamesAncestors }
    ensures formed { FormulaIsFormed }
    ensures shallow { FormulaIsShallow }
    ensures one_formula { OneFormula }
    ensures derived { DerivedIsIdentified }
    ensures one_derivation { OneDerivation }
    ensures accepted { DerivationIsAccepted }
    ensures one_stop { OneStop }
    ensures never_both { NeverBoth }
    ensures hedge { StopIsHedge }
{}
