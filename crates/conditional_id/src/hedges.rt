//! Where observations are left whose own effect has a hedge, the target has no formula.

ghost use Rattle.conditional_id.specs.HedgeLaws.{LeafPairsExclude, OddsFixWeights, HedgesExcludeGiven, HedgesExcludeTurned, HedgesExcludeFormula, HedgesGiveModels, HedgesGiveModelsTurned};

/// What is true of two models with leaves, and of a hedge for what is left.
pub fn laws()
    ensures odds { OddsFixWeights }
    ensures leaves { LeafPairsExclude }
    ensures given { HedgesExcludeGiven }
    ensures turned { HedgesExcludeTurned }
    ensures formula { HedgesExcludeFormula }
    ensures models { HedgesGiveModels }
    ensures models_turned { HedgesGiveModelsTurned }
{}
