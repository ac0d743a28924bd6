//! How many levels the treatment has in a table.

ghost use Rattle.std.specs.Prelude.{IfSome, IfNone};
ghost use Rattle.std.specs.Bool.{OnTrue, OnFalse};
ghost use Rattle.evaluate_treated.specs.Effects.{IsPathOf, reading_of};
ghost use Rattle.evaluate_treated.specs.Right.{AreMoreLevels, AreTwoLevels, HasItsLevels, HasMoreLevels};

use crate::identified::{Identified, Way};
use count_table::Counts;
use mixed_graph::VSet;

/// Whether each vertex of x has at most two levels.
fn are_two_levels(counts: &Counts, x: VSet) -> bool
    ensures yes { OnTrue result (AreTwoLevels x.bits counts.now) }
    ensures no { OnFalse result (AreMoreLevels x.bits counts.now) }
{
    for v in 0..64 {
        if x.has(v) && counts.levels(v) > 2 {
            return false;
        }
    }
    true
}

/// The answer of `treated`, where x has more than two levels and values are had by two alone.
pub fn beyond_two<'a>(found: &'a Identified, counts: &Counts) -> Option<&'a treated_command::Answer>
    ensures more { IfSome result (λ a. HasMoreLevels found.now.asked.sets.x.bits counts.now (reading_of found.now.way)) }
    ensures path { IfSome result (λ a. IsPathOf a.now found.now.way) }
    ensures none { IfNone result (HasItsLevels found.now.asked.sets.x.bits counts.now (reading_of found.now.way)) }
{
    match &found.way {
        Way::Factors(_) => None,
        Way::Split(_, path) => {
            if are_two_levels(counts, found.asked.sets.x) {
                return None;
            }
            Some(path)
        }
    }
}
