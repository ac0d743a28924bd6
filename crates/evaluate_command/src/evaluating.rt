//! The values of an effect over a table of counts.

ghost use Rattle.std.specs.Prelude.{◌≡◌, false, IfOk, IfErr};
ghost use Rattle.mixed_graph.specs.Vocabulary.{has, members_below};
ghost use Rattle.count_eval.specs.Rules.{rule};
ghost use Rattle.evaluate_command.specs.Effects.{effect_in, used_in, IsIdentified};
ghost use Rattle.evaluate_command.specs.Listed.{plain_in};
ghost use Rattle.evaluate_command.specs.Right.{AreEvaluated, IsOverTable, IsUnvalued, HasNoValue};
ghost use Rattle.evaluate_command.specs.Stopped.{is_stop_memory};

use crate::answer::{Valued, Values};
use crate::cells::{push_cells, varied};
use crate::identified::Identified;
use count_eval::EvalFault;
use count_eval::tables::prepare;
use count_table::Counts;
use dag_reader::ReadGraph;
use quantity::{Bounds, Exact, Quantity};
use std::alloc::Global;

/// The values of an identified effect over a table of counts, in exact fractions or in bounds; or why the first printed cell
/// that has none has none.
///
/// With `zero` a product with a factor 0 is 0 whatever its other factors are.
pub fn values_over(
    alloc: Global,
    seen: &ReadGraph,
    found: &Identified,
    counts: &Counts,
    exact: bool,
    zero: bool,
) -> Result<Values, EvalFault>
    requires identified { IsIdentified (effect_in seen.now found.now) }
    requires used { counts.now.vertices ≡ members_below (has (used_in (effect_in seen.now found.now))) 64 }
    ensures values { IfOk result (IsOverTable exact zero (effect_in seen.now found.now) counts.now) }
    ensures fault { IfErr result (λ f. is_stop_memory f ≡ false → HasNoValue exact zero (effect_in seen.now found.now) counts.now f) }
{
    if exact {
        return match values_in::<Exact>(alloc, seen, found, counts, zero) {
            Ok(values) => Ok(Values::Exact(values)),
            Err(fault) => Err(fault),
        };
    }
    match values_in::<Bounds>(alloc, seen, found, counts, zero) {
        Ok(values) => Ok(Values::Bounds(values)),
        Err(fault) => Err(fault),
    }
}

/// The values in a kind of quantity.
fn values_in<Q: Quantity>(
    alloc: Global,
    seen: &ReadGraph,
    found: &Identified,
    counts: &Counts,
    zero: bool,
) -> Result<Vec<Valued<Q>>, EvalFault>
    requires identified { IsIdentified (effect_in seen.now found.now) }
    requires used { counts.now.vertices ≡ members_below (has (used_in (effect_in seen.now found.now))) 64 }
    ensures values { IfOk result (λ v. AreEvaluated (rule Q.kind zero) Q.covers (effect_in seen.now found.now) counts.now (plain_in Q.numbers v.items)) }
    ensures fault { IfErr result (λ f. is_stop_memory f ≡ false → IsUnvalued (rule Q.kind zero) (effect_in seen.now found.now) counts.now f) }
{
    // The clause `table` of `used` is needed: each used vertex has a level, and none other.
    let _used = counts.used();
    weak_adjustment::laws();
    let n = seen.graph.n;
    let target = found.target;
    let Ok(vertices) = varied(alloc, target.x, target.given, target.y) else {
        return Err(EvalFault::NoMemory);
    };
    let Ok(mut cell) = vec![in alloc; 0; n as usize] else {
        return Err(EvalFault::NoMemory);
    };
    let Ok(prepared) = prepare(alloc, n, &found.formula, counts, zero) else {
        return Err(EvalFault::NoMemory);
    };
    let mut values = Vec::new(alloc);
    match push_cells(alloc, &mut values, counts, &prepared, &vertices, &mut cell) {
        Ok(()) => Ok(values),
        Err(fault) => Err(fault),
    }
}
