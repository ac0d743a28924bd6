//! Whether an implication can be asked about over a table.

ghost use Rattle.std.specs.Bool.{OnTrue, OnFalse};
ghost use Rattle.implied_differences.specs.Differences.{IsReadable};

use crate::sets::vertices_of;
use count_table::Counts;
use implications::Implication;

/// Whether `largest_difference` may be asked for an implication over a table: a is below b, neither is given, and the
/// table has levels of each vertex of the implication.
pub fn is_readable(c: &Counts, i: &Implication) -> bool
    ensures yes { OnTrue result (IsReadable c.now i.now) }
    ensures no { OnFalse result (IsReadable c.now i.now → ⊥) }
{
    let used = c.used();
    if i.a >= i.b {
        return false;
    }
    if i.b >= 64 {
        return false;
    }
    if i.given.has(i.a) {
        return false;
    }
    if i.given.has(i.b) {
        return false;
    }
    vertices_of(i).is_inside(used)
}
