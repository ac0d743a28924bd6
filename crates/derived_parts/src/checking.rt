//! The check of parts, one for each district.

ghost use Rattle.std.specs.Prelude.{◌≡◌, true, IfErr, OnOk};
ghost use Rattle.mixed_graph.specs.Vocabulary.{graph_of};
ghost use Rattle.prob_expr.specs.Vocabulary.{masks_of, target_view};
ghost use Rattle.do_derivation.specs.Vocabulary.{are_sets};
ghost use Rattle.derived_parts.specs.Parts.{AreSound, IsSound, derived_view, derived_views};
ghost use Rattle.derived_parts.specs.Accepted.{AreAccepted, IsAcceptedPart, IsPartFault, IsPartsFault, UnlessMemory, district_target, is_set};

use crate::fault::{PartsFault, fault_at};
use crate::part::DerivedPart;
use do_derivation::check;
use mixed_graph::{Graph, VSet};
use prob_expr::Target;
use std::alloc::Global;

/// The target P(district | do(all other vertices)).
fn target_of(g: &Graph, district: VSet) -> Target
    ensures { target_view result ≡ district_target (graph_of g.now) district.bits }
{
    Target {
        x: VSet::below(g.n).difference(district),
        y: district,
        given: VSet::EMPTY,
    }
}

/// Whether the part of that number is of the district that is due, and is accepted.
fn check_part(
    alloc: Global,
    g: &Graph,
    number: usize,
    due: VSet,
    part: &DerivedPart,
) -> Result<(), PartsFault>
    requires due { is_set g.now.n due.bits ≡ true }
    requires sound { IsSound g.now.n (derived_view part.now) }
    ensures accepted { OnOk result (IsAcceptedPart (graph_of g.now) due.bits (derived_view part.now)) }
    ensures fault { IfErr result (λ why. UnlessMemory why (IsPartFault (graph_of g.now) number due.bits (derived_view part.now) why)) }
{
    if part.district.bits != due.bits {
        return Err(PartsFault::District { part: number, due });
    }
    let target = target_of(g, due);
    match check(alloc, g, &target, &part.formula, &part.derivation) {
        Ok(()) => Ok(()),
        Err(fault) => Err(fault_at(number, fault)),
    }
}

/// Whether the parts are accepted for the districts, one for each of them, in their order; else the first fault.
///
/// Memory may be refused at any time.
pub fn check_parts(
    alloc: Global,
    g: &Graph,
    districts: &[VSet],
    parts: &[DerivedPart],
) -> Result<(), PartsFault>
    requires districts { are_sets g.now.n (masks_of districts.now) ≡ true }
    requires sound { AreSound g.now.n (derived_views parts.now) }
    ensures accepted { OnOk result (AreAccepted (graph_of g.now) (masks_of districts.now) (derived_views parts.now)) }
    ensures fault { IfErr result (λ why. UnlessMemory why (IsPartsFault (graph_of g.now) 0 (masks_of districts.now) (derived_views parts.now) why)) }
{
    for (k, due) in districts.iter().enumerate() {
        if k >= parts.len() {
            return Err(PartsFault::Missing { part: k, due: *due });
        }
        check_part(alloc, g, k, *due, &parts[k])?;
    }
    if parts.len() > districts.len() {
        return Err(PartsFault::Further(districts.len()));
    }
    Ok(())
}
