//! What the names that a command lists stand for: sets of observed vertices, or the first name at fault.
//!
//! `walk(alloc, &all, &observed, walked, list)` gives the set of a list.
#![tactic(auto)]

ghost use Rattle.std.specs.Prelude.{◌≡◌, ◌<◌, ◌++◌, ℕ, IsTrue, false, true, length, IfOk, IfErr, OnOk, None, Some, ◌||◌};
ghost use Rattle.mixed_graph.specs.Vocabulary.{has, AreNames, is_named, index_of, texts};
ghost use Rattle.targets.specs.Targets.{first_fault, name_fault, IsListedSet, IsNameFault, walked_in};

mod fault;
mod query;

pub use fault::TargetFault;
use fault::{latent, twice, unknown};
use mixed_graph::{Names, VSet};
pub use query::{EffectSets, RuleSets, Sets, find_effect_sets, find_rule_sets};
use std::alloc::Global;

/// The set of the observed vertices that a list names, where no name of it is at fault and none is in `walked`.
///
/// Else the first name at fault: `Unknown` where it isn't in the graph, `Latent` where it isn't observed,
/// `Twice` where its vertex is in `walked` or was named before in the list.
pub fn walk(
    alloc: Global,
    all: &Names,
    observed: &Names,
    walked: VSet,
    list: &[Vec<u8>],
) -> Result<VSet, TargetFault>
    ensures none { OnOk result (first_fault all.now observed.now (walked_in observed.now walked.bits) (texts list.now) ≡ None) }
    ensures set { IfOk result (λ s. IsListedSet observed.now (texts list.now) s.bits) }
    ensures fault { IfErr result (IsNameFault (first_fault all.now observed.now (walked_in observed.now walked.bits) (texts list.now))) }
{
    let mut set = VSet::empty();
    for name in list {
        match place(alloc, all, observed, walked.union(set), name.as_slice()) {
            Ok(v) => set = set.union(VSet::one(v)),
            Err(fault) => return Err(fault),
        }
    }
    Ok(set)
}

/// The sets of two lists, the second walked behind the first; else the first name at fault.
pub fn walk_two(
    alloc: Global,
    all: &Names,
    observed: &Names,
    walked: VSet,
    first: &[Vec<u8>],
    second: &[Vec<u8>],
) -> Result<(VSet, VSet), TargetFault>
    ensures none { OnOk result (first_fault all.now observed.now (walked_in observed.now walked.bits) (texts first.now ++ texts second.now) ≡ None) }
    ensures first { IfOk result (λ sets. IsListedSet observed.now (texts first.now) sets.0.bits) }
    ensures second { IfOk result (λ sets. IsListedSet observed.now (texts second.now) sets.1.bits) }
    ensures fault { IfErr result (IsNameFault (first_fault all.now observed.now (walked_in observed.now walked.bits) (texts first.now ++ texts second.now))) }
{
    let set = match walk(alloc, all, observed, walked, first) {
        Ok(set) => set,
        Err(fault) => return Err(fault),
    };
    match walk(alloc, all, observed, walked.union(set), second) {
        Ok(next) => Ok((set, next)),
        Err(fault) => Err(fault),
    }
}

/// The vertex of a listed name.
fn place(
    alloc: Global,
    all: &Names,
    observed: &Names,
    walked: VSet,
    name: &[u8],
) -> Result<u8, TargetFault>
    ensures none { OnOk result (name_fault all.now observed.now (walked_in observed.now walked.bits) name.now ≡ None) }
    ensures vertex { IfOk result (λ v. v ≡ index_of observed.now name.now) }
    ensures within { IfOk result (λ v. (v < length observed.now) × (v < 64)) }
    ensures names { OnOk result (AreNames observed.now) }
    ensures fault { IfErr result (IsNameFault (name_fault all.now observed.now (walked_in observed.now walked.bits) name.now)) }
{
    if all.index(name).is_none() {
        return Err(unknown(alloc, name));
    }
    let Some(v) = observed.index(name) else {
        return Err(latent(alloc, name));
    };
    if walked.has(v) {
        return Err(twice(alloc, name));
    }
    Ok(v)
}
