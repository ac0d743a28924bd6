//! The parts of a nested effect.

ghost use Rattle.std.specs.Prelude.{◌≡◌, ◌<◌, All, IfErr, IfOk};
ghost use Rattle.mixed_graph.specs.Vocabulary.{has, Within, graph_of};
ghost use Rattle.hedge.specs.Vocabulary.{IsMaximalJoined};
ghost use Rattle.prob_expr.specs.Vocabulary.{masks_of};
ghost use Rattle.derived_parts.specs.Vocabulary.{AreSound, derived_views};
ghost use Rattle.natural_id.specs.Vocabulary.{EqualsNatural, IsNaturalTarget, parts_view};
ghost use Rattle.part_checks.specs.Natural.{AcceptsNatural, HasNaturalDistricts, IsNaturalFault, IsSplitAmong};

use crate::answers::NaturalPartsFault;
use crate::reading::read_through;
use derived_parts::{DerivedPart, PartsFault, check_parts};
use hedge::joined_sets::districts;
use identify::ancestors_outside;
use mixed_graph::{Graph, VSet, joined};
use natural_id::{NaturalFormula, Split, leading_past, leading_through, split_in, witness_of};
use std::alloc::Global;

/// What accepted parts read, and over what they are summed.
#[derive(Clone, Copy)]
struct Reading {
    through: VSet,
    summed: VSet,
}

/// The first district that reads both values of a treatment.
fn first_split(g: &Graph, x: VSet, through: VSet, d: VSet, districts: &[VSet]) -> Option<Split>
    requires maximal { All (IsMaximalJoined (graph_of g.now) d.bits) (masks_of districts.now) }
    ensures { IsSplitAmong (graph_of g.now) x.bits through.bits d.bits (masks_of districts.now) result }
{
    for c in districts {
        if let Some(split) = split_in(g, x, through, *c) {
            return Some(split);
        }
    }
    None
}

/// What accepted parts read; or why they aren't accepted.
fn accept(
    alloc: Global,
    g: &Graph,
    x: VSet,
    m: VSet,
    y: VSet,
    z: VSet,
    parts: &Vec<DerivedPart>,
) -> Result<Reading, NaturalPartsFault>
    requires target { IsNaturalTarget (graph_of g.now) x.bits m.bits y.bits z.bits }
    requires m_within { Within g.now.n (has m.bits) }
    requires sound { AreSound g.now.n (derived_views parts.now.items) }
    ensures accepted { IfOk result (λ r. HasNaturalDistricts (graph_of g.now) x.bits m.bits y.bits z.bits (derived_views parts.now.items) r.through.bits r.summed.bits) }
    ensures fault { IfErr result (IsNaturalFault (graph_of g.now) x.bits m.bits y.bits z.bits (derived_views parts.now.items)) }
{
    let children = joined(&g.children, x);
    let past = leading_past(g, x, m, y);
    let through = leading_through(g, x, m, past, y);
    if let Some(witness) = witness_of(g, x, children, through, past) {
        return Err(NaturalPartsFault::Witness(witness));
    }
    let joint = y.union(z);
    let d = ancestors_outside(g, x, joint);
    let found = districts(g, d);
    let sets = &found.sets[..found.count as usize];
    if let Some(split) = first_split(g, x, through, d, sets) {
        return Err(NaturalPartsFault::Split(split));
    }
    match check_parts(alloc, g, sets, parts.as_slice()) {
        Ok(()) => Ok(Reading {
            through,
            summed: d.difference(joint),
        }),
        Err(fault) => Err(NaturalPartsFault::Parts(fault)),
    }
}

/// The formula of P(y[x, m[x']] | z) in these parts, whoever wrote them; or why they aren't accepted, the first fault in order.
///
/// There is one part for each district of the ancestors of y and z outside x, in the order in which `districts` lists them, and
/// `check` accepts each. Memory may be refused at any time.
pub fn check_natural_parts(
    alloc: Global,
    g: &Graph,
    x: VSet,
    m: VSet,
    y: VSet,
    z: VSet,
    parts: Vec<DerivedPart>,
) -> Result<NaturalFormula, NaturalPartsFault>
    requires target { IsNaturalTarget (graph_of g.now) x.bits m.bits y.bits z.bits }
    requires m_within { Within g.now.n (has m.bits) }
    requires sound { AreSound g.now.n (derived_views parts.items) }
    ensures accepted { IfOk result (λ f. AcceptsNatural (graph_of g.now) x.bits m.bits y.bits z.bits (derived_views parts.items) (parts_view f.parts.items)) }
    ensures fault { IfErr result (IsNaturalFault (graph_of g.now) x.bits m.bits y.bits z.bits (derived_views parts.items)) }

    // What that means.
    ensures effect { IfOk result (λ f. EqualsNatural (graph_of g.now) x.bits m.bits y.bits z.bits f.summed.bits (parts_view f.parts.items)) }
{
    let reading = accept(alloc, g, x, m, y, z, &parts)?;
    match read_through(alloc, g, x, reading.through, parts) {
        Ok(parts) => Ok(NaturalFormula {
            summed: reading.summed,
            parts,
        }),
        Err(_) => Err(NaturalPartsFault::Parts(PartsFault::NoMemory)),
    }
}
