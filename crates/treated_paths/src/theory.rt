//! What such paths say of effects among the treated.

ghost use Rattle.treated_paths.specs.Paths.{PathsDifferAmong, PathsExcludeAmong};
ghost use Rattle.treated_paths.specs.TwoValues.{TwoValuesSplitJoint};

/// The laws of paths and effects among the treated.
pub fn laws()
    ensures differ { PathsDifferAmong }
    ensures exclude { PathsExcludeAmong }
    ensures two { TwoValuesSplitJoint }
{}
