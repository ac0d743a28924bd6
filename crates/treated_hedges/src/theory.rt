//! What hedges say of effects among the treated.

ghost use Rattle.treated_hedges.specs.Excluded.{CounterModelsExcludeAmong};

/// The law of hedges and effects among the treated.
pub fn laws()
    ensures excludes { CounterModelsExcludeAmong }
{}
