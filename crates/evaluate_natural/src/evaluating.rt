//! The values of an effect over a table of counts.

ghost use Rattle.std.specs.Prelude.{◌≡◌, false, IfOk, IfErr};
ghost use Rattle.evaluate_command.specs.Stopped.{is_stop_memory};
ghost use Rattle.evaluate_natural.specs.Effects.{nested_in};
ghost use Rattle.evaluate_natural.specs.Right.{HasNoValue, IsOverTable};
ghost use Rattle.evaluate_natural.specs.Walking.{IsOver};

use crate::identified::{Identified, paired};
use count_eval::EvalFault;
use count_table::Counts;
use dag_reader::ReadGraph;
use evaluate_command::Values;
use paired_values::{PairFault, values_over};
use quantity::{Bounds, Exact};
use std::alloc::Global;

/// The values of an identified effect over a table of counts, in exact fractions or in bounds; or why the first printed cell
/// that has none has none.
pub fn nested_values(
    alloc: Global,
    seen: &ReadGraph,
    found: &Identified,
    counts: &Counts,
    exact: bool,
) -> Result<Values, EvalFault>
    requires { IsOver (nested_in seen.now found.now) counts.now }
    ensures values { IfOk result (IsOverTable exact (nested_in seen.now found.now) counts.now) }
    ensures fault { IfErr result (λ f. is_stop_memory f ≡ false → HasNoValue exact (nested_in seen.now found.now) counts.now f) }
{
    // Their clauses say what the values cover, in either kind of quantity.
    factor_values::laws::<Exact>();
    factor_values::laws::<Bounds>();
    natural_values::laws::<Exact>();
    natural_values::laws::<Bounds>();
    let effect = paired(seen, found);
    match values_over(alloc, &effect, counts, exact) {
        Ok(values) => Ok(values),
        Err(PairFault::Stopped(fault)) => Err(fault),
        Err(PairFault::Below { .. }) => unreachable!(),
    }
}
