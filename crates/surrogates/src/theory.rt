//! What is true of the procedure over experiments.

ghost use Rattle.surrogates.specs.Common.{StopUnderHasHedge, AroundIsApart, EachIsHarmless};
ghost use Rattle.surrogates.specs.ExperimentLaws.{DerivedIsSurrogate, SurrogateIsAccepted, SurrogateIsFormed, SurrogateIsShallow, StopHasHedge, StopIsFirstBlocked, BlockedExcludesFormula, OneSurrogate, OneStopWith, PlainComesFirst};

/// What follows from the definition of the procedure over experiments, about each formula that it
/// answers and each place where it stops.
pub fn laws()
    ensures derived { DerivedIsSurrogate }
    ensures accepted { SurrogateIsAccepted }
    ensures formed { SurrogateIsFormed }
    ensures shallow { SurrogateIsShallow }
    ensures hedge { StopHasHedge }
    ensures hedge_under { StopUnderHasHedge }
    ensures around { AroundIsApart }
    ensures harmless { EachIsHarmless }
    ensures first_blocked { StopIsFirstBlocked }
    ensures excludes { BlockedExcludesFormula }
    ensures one_formula { OneSurrogate }
    ensures one_stop { OneStopWith }
    ensures plain_first { PlainComesFirst }
{}
