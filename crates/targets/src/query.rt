//! The sets that the lists of a question name.

ghost use Rattle.std.specs.Prelude.{◌≡◌, ◌<◌, IfOk, IfErr, length, map};
ghost use Rattle.mixed_graph.specs.Vocabulary.{has, members_below, Within, texts, name_of};
ghost use Rattle.targets.specs.Targets.{OrMemory, AreListedSets, IsListFault, AreSets, IsTargetFault, AreRuleSets, IsRuleFault, AreEffectSets, IsEffectFault};

use crate::fault::TargetFault;
use crate::walk_two;
use mixed_graph::{Names, VSet};
use std::alloc::Global;

/// The sets of a query: exposures, outcomes, and what is given.
#[derive(Clone, Copy)]
pub struct Sets {
    pub x: VSet,
    pub y: VSet,
    pub given: VSet,
}

/// The sets of a rule of the do-calculus: y and z, with what is done and what is given.
#[derive(Clone, Copy)]
pub struct RuleSets {
    pub y: VSet,
    pub x: VSet,
    pub z: VSet,
    pub given: VSet,
}

/// The sets that the lists of a rule name, all of them observed and none named twice.
///
/// Else the first name at fault, y walked first, then what is done, then z, then given; else `EmptyY`;
/// else `EmptyX` where z is empty.
pub fn find_rule_sets(
    alloc: Global,
    all: &Names,
    observed: &Names,
    y: &[Vec<u8>],
    x: &[Vec<u8>],
    z: &[Vec<u8>],
    given: &[Vec<u8>],
) -> Result<RuleSets, TargetFault>
    ensures sets { IfOk result (λ s. AreRuleSets (record { all = all.now; observed = observed.now; y = texts y.now; x = texts x.now; z = texts z.now; given = texts given.now }) s.y.bits s.x.bits s.z.bits s.given.bits) }
    ensures fault { IfErr result (OrMemory (IsRuleFault (record { all = all.now; observed = observed.now; y = texts y.now; x = texts x.now; z = texts z.now; given = texts given.now }))) }
{
    let (set_y, set_x) = match walk_two(alloc, all, observed, VSet::empty(), y, x) {
        Ok(sets) => sets,
        Err(fault) => return Err(fault),
    };
    let (set_z, set_given) = match walk_two(alloc, all, observed, set_y.union(set_x), z, given) {
        Ok(sets) => sets,
        Err(fault) => return Err(fault),
    };
    if y.is_empty() {
        return Err(TargetFault::EmptyY);
    }
    if z.is_empty() {
        return Err(TargetFault::EmptyX);
    }
    Ok(RuleSets {
        y: set_y,
        x: set_x,
        z: set_z,
        given: set_given,
    })
}

/// The sets of an effect of x on y.
#[derive(Clone, Copy)]
pub struct EffectSets {
    pub x: VSet,
    pub y: VSet,
}

/// The sets that the lists of an effect name, all of them observed and none named twice. x may be empty.
///
/// Else the first name at fault, x walked first, then y; else `EmptyY`.
pub fn find_effect_sets(
    alloc: Global,
    all: &Names,
    observed: &Names,
    x: &[Vec<u8>],
    y: &[Vec<u8>],
) -> Result<EffectSets, TargetFault>
    ensures sets { IfOk result (λ s. AreEffectSets (record { all = all.now; observed = observed.now; x = texts x.now; y = texts y.now }) s.x.bits s.y.bits) }
    ensures fault { IfErr result (OrMemory (IsEffectFault (record { all = all.now; observed = observed.now; x = texts x.now; y = texts y.now }))) }
{
    let (set_x, set_y) = match walk_two(alloc, all, observed, VSet::empty(), x, y) {
        Ok(sets) => sets,
        Err(fault) => return Err(fault),
    };
    if y.is_empty() {
        return Err(TargetFault::EmptyY);
    }
    Ok(EffectSets { x: set_x, y: set_y })
}
