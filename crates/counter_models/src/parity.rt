//! The two models of a hedge: they agree on all observations and differ on the effect.

ghost use Rattle.counter_models.specs.ParityExperiments.{ExperimentsAgree};
ghost use Rattle.counter_models.specs.ParityLaws.{BothFit, BothPositive, ObservationsAgree, EventIsHalf, EventIsMore, EffectsDiffer, EffectsDifferAtEach};

/// The laws of the two models that the data of a hedge gives (Shpitser and Pearl: a hedge shows that the effect isn't identifiable).
pub fn laws()
    // Both are models of the graph in which each assignment has a positive weight.
    ensures fit { BothFit }
    ensures positive { BothPositive }

    // What can be observed is the same.
    ensures observed { ObservationsAgree }
    ensures experiments { ExperimentsAgree }

    // Under the intervention the event has two probabilities, whatever the value of x.
    ensures half { EventIsHalf }
    ensures more { EventIsMore }

    // So the effects differ, under every value of x.
    ensures effects { EffectsDiffer }
    ensures each { EffectsDifferAtEach }
{}
