//! The laws of nested counterfactuals.

ghost use Rattle.nested_models.specs.Nested.{NestedIsHeld, OneValueIsEffect, NoIndirectPathIsEffect, NoDirectPathIsEffect};
ghost use Rattle.nested_models.specs.Nested.{NoWitnessTellsApart, WitnessLeavesNone, NestedIsProduct};
ghost use Rattle.nested_models.specs.NoFormula.{DifferenceExcludesNested, EffectExcludesNested};

/// The laws of nested counterfactuals.
pub fn laws()
    ensures held { NestedIsHeld }
    ensures one_value { OneValueIsEffect }
    ensures no_indirect { NoIndirectPathIsEffect }
    ensures no_direct { NoDirectPathIsEffect }
    ensures tells_apart { NoWitnessTellsApart }
    ensures leaves_none { WitnessLeavesNone }
    ensures product { NestedIsProduct }
    ensures excludes { DifferenceExcludesNested }
    ensures effect_excludes { EffectExcludesNested }
{}
