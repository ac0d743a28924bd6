//! Bounds of an effect by a set that is adjusted for, where some strata have no records of the arm.
#![tactic(auto)]

ghost use Rattle.adjusted_bounds.specs.Adjusted.{AdjustedBoundsHold};

/// The bounds hold in every model that fits the graph, positive or not.
pub fn laws()
    ensures effect { AdjustedBoundsHold }
{}
