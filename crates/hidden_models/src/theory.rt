//! Models of diagrams with hidden vertices: what is true of them because of the observed graph.

ghost use Rattle.hidden_models.specs.FoldingLaws.{EachHasFolded, FoldedIsPositive, FoldedKeepsWeights, FoldedKeepsValues, FoldedKeepsEffects, RightIsRightAsDrawn};
ghost use Rattle.hidden_models.specs.UnfoldingLaws.{EachIsFolded, UnfoldedIsPositive, DifferenceIsDrawn, DifferenceOverIsDrawn, FormulaAsDrawnFixes, FormulaFailureIsDrawn};
ghost use Rattle.hidden_models.specs.Statements.{IndependenceIsDrawn, DependenceIsDrawn, EquationIsDrawn, FailureIsDrawn};

/// What is true of the models of a diagram with hidden vertices.
pub fn laws()
    // Each has a model of the observed graph that gives observed events the same probabilities.
    ensures folded { EachHasFolded }

    // Such a model is positive where the model is on the observed vertices, and keeps all weights and values.
    ensures positive { FoldedIsPositive }
    ensures weights { FoldedKeepsWeights }
    ensures values { FoldedKeepsValues }
    ensures effects { FoldedKeepsEffects }

    // So what is right in the observed graph is right in the diagram as drawn.
    ensures drawn { RightIsRightAsDrawn }

    // Each model of the observed graph whose causes serve one vertex or two folds one of the diagram.
    ensures unfolded { EachIsFolded }
    ensures unfolded_positive { UnfoldedIsPositive }

    // So what isn't identifiable in the observed graph isn't in the diagram as drawn.
    ensures not_identifiable { DifferenceIsDrawn }
    ensures over_experiments { DifferenceOverIsDrawn }
    ensures fixes { FormulaAsDrawnFixes }

    // And what isn't the effect in some model of the observed graph isn't it in some of the diagram.
    ensures formula_failure { FormulaFailureIsDrawn }

    // And what separations and rules say is said of the diagram as drawn, where they hold and where they don't.
    ensures independent { IndependenceIsDrawn }
    ensures dependent { DependenceIsDrawn }
    ensures equation { EquationIsDrawn }
    ensures failure { FailureIsDrawn }
{}
