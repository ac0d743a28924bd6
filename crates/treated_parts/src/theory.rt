//! What is proved of the parts.

ghost use Rattle.treated_parts.specs.Parts.{TreatedPartsAreRight};

/// What is proved of the parts.
pub fn laws()
    ensures { TreatedPartsAreRight }
{}
