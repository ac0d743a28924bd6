//! The factor of one district, under one experiment after the other.

ghost use Rattle.std.specs.Prelude.{◌≡◌, ◌+◌, ◌<◌, ◌^◌, ◌≤◌, ℕ, true, length, None, IsTrue, IfOk, IfErr};
ghost use Rattle.mixed_graph.specs.Vocabulary.{has, Within, graph_of, is_apart};
ghost use Rattle.hedge.specs.Vocabulary.{IsJoinedSet};
ghost use Rattle.prob_expr.specs.Vocabulary.{masks_of};
ghost use Rattle.surrogates.specs.Surrogates.{IsStoppedUnder};
ghost use Rattle.surrogates.specs.Tries.{IsDistrictFrom, IsTried, IsTryFault, IsAttempt, IsAttemptOf, IsFirstTried, IsBlockedFactor};

use identify::factors::{Factor, FactorFault, factor_under};
use identify::{Wanted, order_of};
use mixed_graph::{Graph, VSet};
use std::alloc::{AllocError, Global};

/// The factor of c, read from the distribution under an intervention on z, in the graph without z.
pub fn factor_without(
    alloc: Global,
    g: &Graph,
    z: VSet,
    c: VSet,
    first: u32,
) -> Result<Factor, FactorFault>
    requires apart { is_apart z.bits c.bits ≡ true }
    requires district { IsDistrictFrom (graph_of g.now) c.bits first }
    ensures tried { IfOk result (IsTried (graph_of g.now) z.bits c.bits first) }
    ensures fault { IfErr result (IsTryFault (graph_of g.now) z.bits c.bits) }
{
    let rest = g.induced(VSet::below(g.n).difference(z));
    let order = order_of(&rest);
    factor_under(alloc, Wanted::Derivation, &rest, &order, z, c, first)
}

/// No factor, but for want of memory.
fn passed(fault: FactorFault) -> Result<Option<Factor>, AllocError>
    ensures { IfOk result (λ o. (o ≡ None) × (fault ≡ FactorFault.NoMemory → ⊥)) }
{
    match fault {
        FactorFault::Stopped(_) => Ok(None),
        FactorFault::NoMemory => Err(AllocError),
    }
}

/// The factor of c under z; none where z meets c, or where the factor stops.
fn attempt(
    alloc: Global,
    g: &Graph,
    z: VSet,
    c: VSet,
    first: u32,
) -> Result<Option<Factor>, AllocError>
    requires district { IsDistrictFrom (graph_of g.now) c.bits first }
    ensures { IfOk result (IsAttempt (graph_of g.now) z.bits c.bits first) }
{
    if !z.is_apart(c) {
        return Ok(None);
    }
    match factor_without(alloc, g, z, c, first) {
        Ok(factor) => Ok(Some(factor)),
        Err(fault) => passed(fault),
    }
}

/// The factor of c under the first of the experiments that leaves it alone and doesn't stop.
fn attempt_each(
    alloc: Global,
    g: &Graph,
    experiments: &[VSet],
    c: VSet,
    first: u32,
) -> Result<Option<Factor>, AllocError>
    requires district { IsDistrictFrom (graph_of g.now) c.bits first }
    ensures { IfOk result (IsAttemptOf (graph_of g.now) (masks_of experiments.now) c.bits first) }
{
    for z in experiments {
        let found = match attempt(alloc, g, *z, c, first) {
            Ok(found) => found,
            Err(_) => return Err(AllocError),
        };
        match found {
            Some(factor) => return Ok(Some(factor)),
            None => {}
        }
    }
    Ok(None)
}

/// The factor of c under the first of the experiments, where without experiment it stops at big.
fn after_stop(
    alloc: Global,
    g: &Graph,
    experiments: &[VSet],
    c: VSet,
    first: u32,
    big: VSet,
) -> Result<Factor, FactorFault>
    requires district { IsDistrictFrom (graph_of g.now) c.bits first }
    requires stopped { IsStoppedUnder (graph_of g.now) 0 c.bits big.bits }
    ensures tried { IfOk result (IsFirstTried (graph_of g.now) (masks_of experiments.now) c.bits first) }
    ensures fault { IfErr result (IsBlockedFactor (graph_of g.now) (masks_of experiments.now) c.bits) }
{
    let found = match attempt_each(alloc, g, experiments, c, first) {
        Ok(found) => found,
        Err(_) => return Err(FactorFault::NoMemory),
    };
    match found {
        Some(factor) => Ok(factor),
        None => Err(FactorFault::Stopped(big)),
    }
}

/// The factor of c under the first of no experiment and the experiments in turn that leaves it alone
/// and doesn't stop.
///
/// Where all stop, `Stopped` has the set at which it stops without experiment.
pub fn first_factor(
    alloc: Global,
    g: &Graph,
    experiments: &[VSet],
    c: VSet,
    first: u32,
) -> Result<Factor, FactorFault>
    requires within { Within g.now.n (has c.bits) }
    requires some { (v : ℕ) × IsTrue (has c.bits v) }
    requires joined { IsJoinedSet (graph_of g.now) c.bits }
    requires room { first + 64 < 2 ^ 32 }
    ensures tried { IfOk result (IsFirstTried (graph_of g.now) (masks_of experiments.now) c.bits first) }
    ensures fault { IfErr result (IsBlockedFactor (graph_of g.now) (masks_of experiments.now) c.bits) }
{
    match factor_without(alloc, g, VSet::EMPTY, c, first) {
        Ok(factor) => Ok(factor),
        Err(FactorFault::Stopped(big)) => after_stop(alloc, g, experiments, c, first, big),
        Err(FactorFault::NoMemory) => Err(FactorFault::NoMemory),
    }
}
