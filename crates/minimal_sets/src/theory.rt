//! What minimal admissible sets are in models.

ghost use Rattle.minimal_sets.specs.MinimalSets.{MinimalIsExact};

/// What minimal admissible sets are in models.
pub fn laws()
    ensures { MinimalIsExact }
{}
