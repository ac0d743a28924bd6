//! What is proved of the formulas of the two effects.

ghost use Rattle.interventional_id.specs.Laws.{FormulasGiveInterventional, InterventionalIsDrawn};

/// What is proved of the formulas of the two effects.
pub fn laws()
    ensures formulas { FormulasGiveInterventional }
    ensures drawn { InterventionalIsDrawn }
{}
