//! The values of an effect over a table of counts.

ghost use Rattle.std.specs.Prelude.{◌≡◌, Ok, false, IfOk, IfErr};
ghost use Rattle.evaluate_command.specs.Vocabulary.{plain_in};
ghost use Rattle.paired_values.specs.Cells.{printed_cells};
ghost use Rattle.paired_values.specs.Readings.{IsOver, paired_view};
ghost use Rattle.paired_values.specs.Values.{AreValuesOver, IsWhyNone, are_exact, is_wanting, value_by, values_at};
ghost use Rattle.paired_values.specs.Walking.{IsFaultAt};

use crate::axes::varied;
use crate::cells::push_cells;
use crate::fault::PairFault;
use crate::readings::PairedEffect;
use count_eval::EvalFault;
use count_table::Counts;
use differences::Difference;
use evaluate_command::{Valued, Values};
use quantity::{Bounds, Exact};
use std::alloc::Global;

/// The values of an effect at the printed cells, over a table of counts, in exact fractions or in bounds; or why the first printed
/// cell that has none has none.
pub fn values_over(
    alloc: Global,
    effect: &PairedEffect<'_>,
    counts: &Counts,
    exact: bool,
) -> Result<Values, PairFault>
    requires { IsOver (paired_view effect.now) counts.now }
    ensures values { IfOk result (AreValuesOver exact (paired_view effect.now) counts.now) }
    ensures fault { IfErr result (λ f. is_wanting f ≡ false → IsWhyNone exact (paired_view effect.now) counts.now f) }
{
    if exact {
        return match values_in::<Exact>(alloc, effect, counts) {
            Ok(values) => Ok(Values::Exact(values)),
            Err(fault) => Err(fault),
        };
    }
    match values_in::<Bounds>(alloc, effect, counts) {
        Ok(values) => Ok(Values::Bounds(values)),
        Err(fault) => Err(fault),
    }
}

/// The values in a kind of quantity.
fn values_in<Q: Difference>(
    alloc: Global,
    effect: &PairedEffect<'_>,
    counts: &Counts,
) -> Result<Vec<Valued<Q>>, PairFault>
    requires { IsOver (paired_view effect.now) counts.now }
    ensures values { IfOk result (λ v. values_at (value_by Q.kind Q.difference (paired_view effect.now) counts.now) (printed_cells (paired_view effect.now) counts.now)
        ≡ Ok (plain_in Q.numbers v.items)) }
    ensures fault { IfErr result (λ f. is_wanting f ≡ false
        → IsFaultAt Q.kind Q.difference (paired_view effect.now) counts.now (printed_cells (paired_view effect.now) counts.now) f) }
{
    let Ok(axes) = varied(alloc, effect.n, effect.sets) else {
        return Err(PairFault::Stopped(EvalFault::NoMemory));
    };
    let mut values = Vec::new(alloc);
    match push_cells(alloc, &mut values, effect, counts, &axes, [0; 64]) {
        Ok(()) => Ok(values),
        Err(fault) => Err(fault),
    }
}

/// Whether they are exact fractions.
pub fn are_exact(values: &Values) -> bool
    ensures { result ≡ are_exact values.now }
{
    match values {
        Values::Exact(_) => true,
        Values::Bounds(_) => false,
    }
}
