//! The values of an effect over a table of counts.

ghost use Rattle.std.specs.Prelude.{◌≡◌, false, IfOk, IfErr};
ghost use Rattle.evaluate_treated.specs.Effects.{among_in};
ghost use Rattle.evaluate_treated.specs.Right.{HasItsLevels};
ghost use Rattle.evaluate_treated.specs.Walking.{AreShown, IsOver, IsNone};
ghost use Rattle.paired_values.specs.Vocabulary.{is_wanting};

use crate::identified::{Identified, paired};
use count_table::Counts;
use dag_reader::ReadGraph;
use evaluate_command::Values;
use paired_values::{PairFault, values_over};
use quantity::{Bounds, Exact};
use std::alloc::Global;

/// The values of an effect over a table of counts that has levels of which they are had, in exact fractions or in bounds; or why the
/// first printed cell that has none has none.
pub fn among_values(
    alloc: Global,
    seen: &ReadGraph,
    found: &Identified,
    counts: &Counts,
    exact: bool,
) -> Result<Values, PairFault>
    requires over { IsOver (among_in seen.now found.now) counts.now }
    requires levels { HasItsLevels found.now.asked.sets.x.bits counts.now (among_in seen.now found.now).reading }
    ensures values { IfOk result (AreShown exact (among_in seen.now found.now) counts.now) }
    ensures fault { IfErr result (λ f. is_wanting f ≡ false → IsNone exact (among_in seen.now found.now) counts.now f) }
{
    // Their clauses say what the values stand for, in either kind of quantity.
    factor_values::laws::<Exact>();
    factor_values::laws::<Bounds>();
    named_factors::laws::<Exact>();
    named_factors::laws::<Bounds>();
    split_values::laws::<Exact>();
    split_values::laws::<Bounds>();
    values_over(alloc, &paired(seen, found), counts, exact)
}
