//! What the two models of a hedge show (Shpitser and Pearl).

ghost use Rattle.counter_models.specs.Experiments.{PairsAgreeUnder};
ghost use Rattle.counter_models.specs.Theory.{HedgeIsWhole};
ghost use Rattle.counter_models.specs.Events.{PairsAreCounterModels, HedgesHavePairs};

/// What the two models of a hedge show (Shpitser and Pearl).
pub fn laws()
    // Each hedge, with the vertices that carry its roots' bits to y, keeps what the theory of the two models needs.
    ensures whole { HedgeIsWhole }

    // Its two models agree on all observations and differ on the effect.
    ensures counter { PairsAreCounterModels }

    // There are such two models of each hedge, though nobody builds them.
    ensures pairs { HedgesHavePairs }

    // An experiment that leaves big alone, or sets a member of small, doesn't tell them apart either.
    ensures experiments { PairsAgreeUnder }
{}
