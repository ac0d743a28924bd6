//! The sets that the lists of a question name in a diagram.

ghost use Rattle.std.specs.Prelude.{◌≡◌, ℕ, IfOk, IfErr, OnOk, None, Some, length};
ghost use Rattle.mixed_graph.specs.Vocabulary.{has, texts, Within};
ghost use Rattle.targets.specs.Targets.{twice};
ghost use Rattle.targets.specs.Vocabulary.{first_fault, listed, walked_in, IsListedSet, IsNameFault, OrMemory, AreListedSets, IsListFault, AreSets, IsTargetFault, AreEffectSets, IsEffectFault, AreRuleSets, IsRuleFault};
ghost use Rattle.diagram.specs.Observed.{observed_set};
ghost use Rattle.diagram.specs.Sets.{lent, marked, names_or, query_lists, effect_lists, rule_lists};

use crate::diagram::Diagram;
use mixed_graph::{Text, VSet};
use std::alloc::Global;
use targets::{EffectSets, RuleSets, Sets, TargetFault, find_rule_sets, walk};

/// The vertices of a diagram that stand for a list which is missing: those that it marks so.
#[derive(Clone, Copy, Debug, PartialEq, Eq)]
pub enum Marked {
    Exposures,
    Outcomes,
    Adjusted,
}

/// The set that a list names, or where there is none the marked vertices: all of them observed, and none in `walked`.
///
/// Else the first name at fault, as `walk` tells it.
pub fn set_of(
    alloc: Global,
    diagram: &Diagram,
    walked: VSet,
    list: Option<&[Vec<u8>]>,
    mark: Marked,
) -> Result<VSet, TargetFault>
    ensures none { OnOk result (first_fault diagram.now.read.names diagram.now.observed.names (walked_in diagram.now.observed.names walked.bits) (names_or diagram.now.read mark (lent list.entry)) ≡ None) }
    ensures set { IfOk result (λ s. IsListedSet diagram.now.observed.names (names_or diagram.now.read mark (lent list.entry)) s.bits) }
    ensures fault { IfErr result (IsNameFault (first_fault diagram.now.read.names diagram.now.observed.names (walked_in diagram.now.observed.names walked.bits) (names_or diagram.now.read mark (lent list.entry)))) }
{
    match list {
        Some(list) => walk(
            alloc,
            &diagram.read.names,
            &diagram.observed.names,
            walked,
            list,
        ),
        None => apart_from(alloc, diagram, walked, vertices_of(diagram, mark)),
    }
}

/// The marked vertices, in observed numbers.
fn vertices_of(diagram: &Diagram, mark: Marked) -> VSet
    ensures { (v : ℕ) → has result.bits v ≡ observed_set diagram.now.read (marked diagram.now.read mark) v }
{
    match mark {
        Marked::Exposures => diagram.observed.exposures,
        Marked::Outcomes => diagram.observed.outcomes,
        Marked::Adjusted => diagram.observed.adjusted,
    }
}

/// A set of observed vertices, none of them in `walked`; else the lowest that is.
fn apart_from(
    alloc: Global,
    diagram: &Diagram,
    walked: VSet,
    set: VSet,
) -> Result<VSet, TargetFault>
    requires { Within (length diagram.now.observed.names) (has set.bits) }
    ensures none { OnOk result (first_fault diagram.now.read.names diagram.now.observed.names (walked_in diagram.now.observed.names walked.bits) (listed diagram.now.observed.names set.bits None) ≡ None) }
    ensures set { IfOk result (λ s. s.bits ≡ set.bits) }
    ensures fault { IfErr result (IsNameFault (first_fault diagram.now.read.names diagram.now.observed.names (walked_in diagram.now.observed.names walked.bits) (listed diagram.now.observed.names set.bits None))) }
{
    let both = set.intersection(walked);
    if both.is_empty() {
        return Ok(set);
    }
    Err(twice(alloc, diagram.observed.names.get(both.lowest())))
}

/// A name stands twice.
fn twice(alloc: Global, name: &[u8]) -> TargetFault
    ensures { IsNameFault (Some (twice name.now)) result }
{
    match Text::of(alloc, name) {
        Ok(text) => TargetFault::Twice(text),
        Err(_) => TargetFault::NoMemory,
    }
}

/// The sets of the lists of an effect, all of them observed and none named twice. x may be empty.
///
/// Else the first name at fault, x walked first, then y; else `EmptyY`.
pub fn asked_effect(
    alloc: Global,
    diagram: &Diagram,
    x: Option<&[Vec<u8>]>,
    y: Option<&[Vec<u8>]>,
) -> Result<EffectSets, TargetFault>
    ensures sets { IfOk result (λ s. AreEffectSets (effect_lists diagram.now.read diagram.now.observed.names (lent x.entry) (lent y.entry)) s.x.bits s.y.bits) }
    ensures fault { IfErr result (OrMemory (IsEffectFault (effect_lists diagram.now.read diagram.now.observed.names (lent x.entry) (lent y.entry)))) }
{
    let set_x = match set_of(alloc, diagram, VSet::empty(), x, Marked::Exposures) {
        Ok(set) => set,
        Err(fault) => return Err(fault),
    };
    let set_y = match set_of(alloc, diagram, set_x, y, Marked::Outcomes) {
        Ok(set) => set,
        Err(fault) => return Err(fault),
    };
    if set_y.is_empty() {
        return Err(TargetFault::EmptyY);
    }
    Ok(EffectSets { x: set_x, y: set_y })
}

/// The sets of the lists of a query, all of them observed and none named twice. x may be empty.
///
/// Else the first name at fault, x walked first, then y, then given; else `EmptyY`.
pub fn asked_condition(
    alloc: Global,
    diagram: &Diagram,
    x: Option<&[Vec<u8>]>,
    y: Option<&[Vec<u8>]>,
    given: Option<&[Vec<u8>]>,
) -> Result<Sets, TargetFault>
    ensures sets { IfOk result (λ s. AreListedSets (query_lists diagram.now.read diagram.now.observed.names (lent x.entry) (lent y.entry) (lent given.entry)) s.x.bits s.y.bits s.given.bits) }
    ensures fault { IfErr result (OrMemory (IsListFault (query_lists diagram.now.read diagram.now.observed.names (lent x.entry) (lent y.entry) (lent given.entry)))) }
{
    let set_x = match set_of(alloc, diagram, VSet::empty(), x, Marked::Exposures) {
        Ok(set) => set,
        Err(fault) => return Err(fault),
    };
    let set_y = match set_of(alloc, diagram, set_x, y, Marked::Outcomes) {
        Ok(set) => set,
        Err(fault) => return Err(fault),
    };
    let set_given = match set_of(alloc, diagram, set_x.union(set_y), given, Marked::Adjusted) {
        Ok(set) => set,
        Err(fault) => return Err(fault),
    };
    if set_y.is_empty() {
        return Err(TargetFault::EmptyY);
    }
    Ok(Sets {
        x: set_x,
        y: set_y,
        given: set_given,
    })
}

/// The same where x may not be empty: else `EmptyX`.
pub fn asked_query(
    alloc: Global,
    diagram: &Diagram,
    x: Option<&[Vec<u8>]>,
    y: Option<&[Vec<u8>]>,
    given: Option<&[Vec<u8>]>,
) -> Result<Sets, TargetFault>
    ensures sets { IfOk result (λ s. AreSets (query_lists diagram.now.read diagram.now.observed.names (lent x.entry) (lent y.entry) (lent given.entry)) s.x.bits s.y.bits s.given.bits) }
    ensures fault { IfErr result (OrMemory (IsTargetFault (query_lists diagram.now.read diagram.now.observed.names (lent x.entry) (lent y.entry) (lent given.entry)))) }
{
    let sets = match asked_condition(alloc, diagram, x, y, given) {
        Ok(sets) => sets,
        Err(fault) => return Err(fault),
    };
    if sets.x.is_empty() {
        return Err(TargetFault::EmptyX);
    }
    Ok(sets)
}

/// The sets of the lists of a rule, all of them observed and none named twice.
///
/// Else the first name at fault, y walked first, then what is done, then z, then given; else `EmptyY`;
/// else `EmptyX` where z is empty.
pub fn asked_rule(
    alloc: Global,
    diagram: &Diagram,
    y: &[Vec<u8>],
    x: &[Vec<u8>],
    z: &[Vec<u8>],
    given: &[Vec<u8>],
) -> Result<RuleSets, TargetFault>
    ensures sets { IfOk result (λ s. AreRuleSets (rule_lists diagram.now.read diagram.now.observed.names (texts y.now) (texts x.now) (texts z.now) (texts given.now)) s.y.bits s.x.bits s.z.bits s.given.bits) }
    ensures fault { IfErr result (OrMemory (IsRuleFault (rule_lists diagram.now.read diagram.now.observed.names (texts y.now) (texts x.now) (texts z.now) (texts given.now)))) }
{
    find_rule_sets(
        alloc,
        &diagram.read.names,
        &diagram.observed.names,
        y,
        x,
        z,
        given,
    )
}
