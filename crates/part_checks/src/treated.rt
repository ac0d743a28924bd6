//! The parts of an effect among the treated.

ghost use Rattle.std.specs.Prelude.{◌≡◌, IfErr, IfOk};
ghost use Rattle.mixed_graph.specs.Vocabulary.{graph_of};
ghost use Rattle.derived_parts.specs.Vocabulary.{AreSound, derived_views};
ghost use Rattle.natural_id.specs.Vocabulary.{parts_view};
ghost use Rattle.treated_id.specs.Vocabulary.{IsTreatedTarget};
ghost use Rattle.treated_parts.specs.Vocabulary.{EqualsAmongParts};
ghost use Rattle.part_checks.specs.Treated.{AcceptsTreated, HasTreatedDistricts, IsTreatedFault};

use crate::answers::{TreatedFormula, TreatedPartsFault};
use crate::reading::read_own;
use derived_parts::{DerivedPart, PartsFault, check_parts};
use hedge::joined_sets::districts;
use mixed_graph::{Graph, VSet};
use std::alloc::Global;
use treated_id::{ancestors_of, confounded_pair};

/// Over what accepted parts are summed; or why they aren't accepted.
fn accept(
    alloc: Global,
    g: &Graph,
    x: VSet,
    y: VSet,
    z: VSet,
    parts: &Vec<DerivedPart>,
) -> Result<VSet, TreatedPartsFault>
    requires target { IsTreatedTarget (graph_of g.now) x.bits y.bits z.bits }
    requires sound { AreSound g.now.n (derived_views parts.now.items) }
    ensures accepted { IfOk result (λ s. HasTreatedDistricts (graph_of g.now) x.bits y.bits z.bits (derived_views parts.now.items) s.bits) }
    ensures fault { IfErr result (IsTreatedFault (graph_of g.now) x.bits y.bits z.bits (derived_views parts.now.items)) }
{
    let ancestors = ancestors_of(g, x, y, z);
    if let Some(pair) = confounded_pair(g, x, ancestors) {
        return Err(TreatedPartsFault::Confounded(pair));
    }
    let found = districts(g, ancestors);
    let sets = &found.sets[..found.count as usize];
    match check_parts(alloc, g, sets, parts.as_slice()) {
        Ok(()) => Ok(ancestors.difference(x.union(z).union(y))),
        Err(fault) => Err(TreatedPartsFault::Parts(fault)),
    }
}

/// The formula of P(y under do(x) | x and z as observed) in these parts, whoever wrote them; or why they aren't accepted, the first fault in
/// order.
///
/// There is one part for each district of the ancestors of y, x and z, in the order in which `districts` lists them, and `check` accepts
/// each. Memory may be refused at any time.
pub fn check_treated_parts(
    alloc: Global,
    g: &Graph,
    x: VSet,
    y: VSet,
    z: VSet,
    parts: Vec<DerivedPart>,
) -> Result<TreatedFormula, TreatedPartsFault>
    requires target { IsTreatedTarget (graph_of g.now) x.bits y.bits z.bits }
    requires sound { AreSound g.now.n (derived_views parts.items) }
    ensures accepted { IfOk result (λ f. AcceptsTreated (graph_of g.now) x.bits y.bits z.bits (derived_views parts.items) (parts_view f.parts.items)) }
    ensures fault { IfErr result (IsTreatedFault (graph_of g.now) x.bits y.bits z.bits (derived_views parts.items)) }

    // What that means.
    ensures effect { IfOk result (λ f. EqualsAmongParts (graph_of g.now) x.bits y.bits z.bits f.summed.bits (parts_view f.parts.items)) }
{
    let summed = accept(alloc, g, x, y, z, &parts)?;
    match read_own(alloc, x, parts) {
        Ok(parts) => Ok(TreatedFormula { summed, parts }),
        Err(_) => Err(TreatedPartsFault::Parts(PartsFault::NoMemory)),
    }
}
