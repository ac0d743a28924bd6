//! Differences of quantities: what is left of one where another is taken off, which encloses the true difference.
//!
//! `a.subtract(&b)` is none where that would be below 0.
#![tactic(auto)]

ghost use Rattle.differences.specs.Theorems.{DifferenceIsUndone, DifferencesAreEqual, EqualKeepsAtMost};

mod bounds;
mod difference;
mod exact;

pub use difference::Difference;

/// What holds of differences of fractions, beside the law of `Difference`.
pub fn laws()
    ensures undone { DifferenceIsUndone }
    ensures equal { DifferencesAreEqual }
    ensures at_most { EqualKeepsAtMost }
{}
