//! The laws of pairs that carry coins.

ghost use Rattle.carrying_models.specs.Apart.{WitnessIsApart, SplitIsApart, WitnessDiffers, SplitDiffers};
ghost use Rattle.carrying_models.specs.Apart.{WitnessExcludesNested, SplitExcludesNested};

/// The laws of pairs that carry coins.
pub fn laws()
    ensures witness { WitnessIsApart }
    ensures split { SplitIsApart }
    ensures witness_differs { WitnessDiffers }
    ensures split_differs { SplitDiffers }
    ensures witness_excludes { WitnessExcludesNested }
    ensures split_excludes { SplitExcludesNested }
{}
