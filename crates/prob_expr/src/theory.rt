//! The laws of formulas and of their values.

ghost use Rattle.prob_expr.specs.Differences.{UnequalWeights, DifferenceExcludesFormula, ExperimentsExcludeFormula};
ghost use Rattle.prob_expr.specs.Experiments.{ExperimentsFixValue};
ghost use Rattle.prob_expr.specs.Laws.{AcceptedIsWhole, ValueReadsFree, ValuesArePositive, EffectsArePositive, EffectIsOverTotal, ObservedFixesValue, FormulaFixesEffect};

/// The laws of formulas, and of their values in the models that fit a graph.
pub fn laws()
    // What `check` accepts can be walked, and its terms have probabilities.
    ensures accepted { AcceptedIsWhole }

    // A value depends on the free variables alone.
    ensures free { ValueReadsFree }

    // In a positive model no value is over 0, and none is 0.
    ensures positive { ValuesArePositive }
    ensures positive_effect { EffectsArePositive }
    ensures whole { EffectIsOverTotal }

    // A formula without interventions has its value from what is observed, so it equals no effect
    // that two models with the same observations tell apart.
    ensures observed { ObservedFixesValue }
    ensures fixes { FormulaFixesEffect }
    ensures experiments { ExperimentsFixValue }

    // So two models that agree there and differ on an effect exclude such a formula for it.
    ensures unequal { UnequalWeights }
    ensures excludes { DifferenceExcludesFormula }
    ensures excludes_over { ExperimentsExcludeFormula }
{}
