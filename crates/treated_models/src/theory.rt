//! The laws of effects among those for whom some values were observed.

ghost use Rattle.treated_models.specs.Treated.{TreatedIsHeld, EffectIsSum, ApartSetsMultiply, UntouchedFactors};
ghost use Rattle.treated_models.specs.Treated.{DistrictsMultiply, FactorIsEffect, HeldEventIsSum, TreatedIsProduct, AmongFixesEffect};
ghost use Rattle.treated_models.specs.Chain.{NextFactor, FirstFactor};
ghost use Rattle.treated_models.specs.Differences.{JointEffectIsSum, AmongFixesJoint};
ghost use Rattle.treated_models.specs.NamedOnce.{ObservedFixesNamed};
ghost use Rattle.treated_models.specs.NoFormula.{DifferenceExcludesAmong, DifferingExcludesAmong};
ghost use Rattle.treated_models.specs.TwoValues.{TwoValuesSplit};

/// The laws of effects among those for whom some values were observed.
pub fn laws()
    ensures held { TreatedIsHeld }
    ensures sum { EffectIsSum }
    ensures apart { ApartSetsMultiply }
    ensures factors { UntouchedFactors }
    ensures districts { DistrictsMultiply }
    ensures effect { FactorIsEffect }
    ensures event { HeldEventIsSum }
    ensures product { TreatedIsProduct }
    ensures fixes { AmongFixesEffect }
    ensures next { NextFactor }
    ensures first { FirstFactor }
    ensures joint { JointEffectIsSum }
    ensures joint_fixed { AmongFixesJoint }
    ensures observed { ObservedFixesNamed }
    ensures excludes { DifferenceExcludesAmong }
    ensures differing { DifferingExcludesAmong }
    ensures two { TwoValuesSplit }
{}
