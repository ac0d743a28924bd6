//! What stops a district's factor under all experiments that leave the district alone at once.

ghost use Rattle.std.specs.Prelude.{◌≡◌, if◌then◌else◌, IfOk};
ghost use Rattle.mixed_graph.specs.Vocabulary.{is_apart, union, graph_of};
ghost use Rattle.prob_expr.specs.Vocabulary.{masks_of};
ghost use Rattle.surrogates.specs.Common.{around};
ghost use Rattle.surrogates.specs.Surrogates.{IsStoppedUnder};
ghost use Rattle.surrogates.specs.Tries.{IsDistrictFrom, IsStopTogether};

use crate::tries::factor_without;
use identify::factors::FactorFault;
use mixed_graph::{Graph, VSet};
use std::alloc::{AllocError, Global};

/// What is taken so far, with z where it leaves c alone.
fn taking(taken: VSet, z: VSet, c: VSet) -> VSet
    ensures { result.bits ≡ (if is_apart z.bits c.bits then union taken.bits z.bits else taken.bits) }
{
    if z.is_apart(c) { taken.union(z) } else { taken }
}

/// The experiments that leave c alone, taken together.
fn around(experiments: &[VSet], c: VSet) -> VSet
    ensures { result.bits ≡ around c.bits (masks_of experiments.now) }
{
    let mut taken = VSet::EMPTY;
    for z in experiments {
        taken = taking(taken, *z, c);
    }
    taken
}

/// The set at which the factor of c, which without experiment stops at big, stops under all
/// experiments that leave c alone at once; none where it doesn't.
pub fn common_stop(
    alloc: Global,
    g: &Graph,
    experiments: &[VSet],
    c: VSet,
    big: VSet,
) -> Result<Option<VSet>, AllocError>
    requires district { IsDistrictFrom (graph_of g.now) c.bits 0 }
    requires stopped { IsStoppedUnder (graph_of g.now) 0 c.bits big.bits }
    ensures { IfOk result (IsStopTogether (graph_of g.now) (masks_of experiments.now) c.bits) }
{
    let together = around(experiments, c);
    if together.is_empty() {
        return Ok(Some(big));
    }
    match factor_without(alloc, g, together, c, 0) {
        Ok(_) => Ok(None),
        Err(FactorFault::Stopped(common)) => Ok(Some(common)),
        Err(FactorFault::NoMemory) => Err(AllocError),
    }
}
