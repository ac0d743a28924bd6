//! What differences have to do with models, and how large they are.

ghost use Rattle.implied_differences.specs.Laws.{MatchedDifferencesVanish, DifferencesFit};

/// What the differences have to do with models, and how large they are.
pub fn laws()
    // In each model that fits the graph and matches the counts, positive or not, each difference is 0.
    ensures matched { MatchedDifferencesVanish }

    // Each difference fits its type.
    ensures fit { DifferencesFit }
{}
