//! Parts that are accepted.

ghost use Rattle.std.specs.Prelude.{◌≡◌, ◌<◌, ℕ, All, IfNone, IfOk, IfSome};
ghost use Rattle.mixed_graph.specs.Vocabulary.{has, minus, all, union, Within, Apart, graph_of};
ghost use Rattle.hedge.specs.declared.hedge.Hedge.{Hedge as HedgeData};
ghost use Rattle.hedge.specs.Vocabulary.{IsHedge, IsMaximalJoined};
ghost use Rattle.prob_expr.specs.Vocabulary.{PlainFormula, masks_of};
ghost use Rattle.identification_theory.specs.Vocabulary.{IsIdentified, IsUnidentified};
ghost use Rattle.derived_parts.specs.Vocabulary.{AreAccepted, IsAcceptedPart, derived_view, derived_views};
ghost use Rattle.treated_id.specs.Vocabulary.{IsTreatedTarget};
ghost use Rattle.part_checks.specs.Making.{AreWellMade, IsWellMade};
ghost use Rattle.part_checks.specs.Natural.{AreNaturallyAccepted};
ghost use Rattle.part_checks.specs.Treated.{AreAcceptedAmong};

use derived_parts::DerivedPart;
use hedge::joined_sets::districts;
use identify::{Answer, FormulaAnswer, ancestors_outside, identify, identify_formula};
use mixed_graph::{Graph, VSet};
use std::alloc::{AllocError, Global};
use treated_id::ancestors_of;

/// The part of a district, whose formula is there.
fn derive_part(alloc: Global, g: &Graph, c: VSet) -> Result<DerivedPart, AllocError>
    requires within { Within g.now.n (has c.bits) }
    requires some { 0 < c.bits }
    requires found { (small big : ℕ) → IsUnidentified (graph_of g.now) (minus (all g.now.n) c.bits) c.bits small big → ⊥ }
    ensures accepted { IfOk result (λ p. IsAcceptedPart (graph_of g.now) c.bits (derived_view p)) }
    ensures written { IfOk result (λ p. IsWellMade g.now.n (derived_view p)) }
{
    let others = VSet::below(g.n).difference(c);
    match identify(alloc, g, others, c)? {
        Answer::Formula(formula, derivation) => Ok(DerivedPart {
            district: c,
            formula,
            derivation,
        }),
        Answer::Hedge(_, _) => unreachable!(),
    }
}

/// The parts of districts of d, whose formulas are there.
fn derive_parts(
    alloc: Global,
    g: &Graph,
    d: VSet,
    districts: &[VSet],
) -> Result<Vec<DerivedPart>, AllocError>
    requires within { Within g.now.n (has d.bits) }
    requires districts { All (IsMaximalJoined (graph_of g.now) d.bits) (masks_of districts.now) }
    requires found { All (λ c. (small big : ℕ) → IsUnidentified (graph_of g.now) (minus (all g.now.n) c) c small big → ⊥) (masks_of districts.now) }
    ensures accepted { IfOk result (λ v. AreAccepted (graph_of g.now) (masks_of districts.now) (derived_views v.items)) }
    ensures written { IfOk result (λ v. AreWellMade g.now.n (derived_views v.items)) }
{
    let mut parts = Vec::new(alloc);
    for c in districts {
        let part = derive_part(alloc, g, *c)?;
        parts.push(part)?;
    }
    Ok(parts)
}

/// The parts of P(y[x, m[x']] | z), where P(y, z | do(x)) has a formula.
fn derive_natural(
    alloc: Global,
    g: &Graph,
    x: VSet,
    y: VSet,
    z: VSet,
) -> Result<Vec<DerivedPart>, AllocError>
    requires y_within { Within g.now.n (has y.bits) }
    requires z_within { Within g.now.n (has z.bits) }
    requires x_some { 0 < x.bits }
    requires found { (f : PlainFormula) × IsIdentified (graph_of g.now) x.bits (union y.bits z.bits) f }
    ensures accepted { IfOk result (λ v. AreNaturallyAccepted (graph_of g.now) x.bits y.bits z.bits (derived_views v.items)) }
    ensures written { IfOk result (λ v. AreWellMade g.now.n (derived_views v.items)) }
{
    let d = ancestors_outside(g, x, y.union(z));
    let found = districts(g, d);
    derive_parts(alloc, g, d, &found.sets[..found.count as usize])
}

/// Parts of P(y[x, m[x']] | z) that `check_natural_parts` accepts, whatever m is, where no vertex and no district reads both values of a
/// treatment; none exactly where there is a hedge for P(y, z | do(x)). Their formulas have no fault, and nest little, as their steps do.
///
/// The only error is want of memory.
pub fn derive_natural_parts(
    alloc: Global,
    g: &Graph,
    x: VSet,
    y: VSet,
    z: VSet,
) -> Result<Option<Vec<DerivedPart>>, AllocError>
    requires x_within { Within g.now.n (has x.bits) }
    requires y_within { Within g.now.n (has y.bits) }
    requires z_within { Within g.now.n (has z.bits) }
    requires apart { Apart (has x.bits) (has (union y.bits z.bits)) }
    requires x_some { 0 < x.bits }
    requires y_some { 0 < y.bits }
    ensures parts { IfOk result (λ r. IfSome r (λ v. AreNaturallyAccepted (graph_of g.now) x.bits y.bits z.bits (derived_views v.items))) }
    ensures written { IfOk result (λ r. IfSome r (λ v. AreWellMade g.now.n (derived_views v.items))) }
    ensures hedge { IfOk result (λ r. IfNone r ((h : HedgeData) × IsHedge (graph_of g.now) x.bits (union y.bits z.bits) h)) }
{
    let joint = y.union(z);
    match identify_formula(alloc, g, x, joint)? {
        FormulaAnswer::Formula(_) => {
            let parts = derive_natural(alloc, g, x, y, z)?;
            Ok(Some(parts))
        }
        FormulaAnswer::Hedge(_, _) => Ok(None),
    }
}

/// Parts of P(y under do(x) | x and z as observed) that `check_treated_parts` accepts, where no treatment is joined to a child of its own.
/// Their formulas have no fault, and nest little, as their steps do.
///
/// The only error is want of memory.
pub fn derive_treated_parts(
    alloc: Global,
    g: &Graph,
    x: VSet,
    y: VSet,
    z: VSet,
) -> Result<Vec<DerivedPart>, AllocError>
    requires target { IsTreatedTarget (graph_of g.now) x.bits y.bits z.bits }
    ensures accepted { IfOk result (λ v. AreAcceptedAmong (graph_of g.now) x.bits y.bits z.bits (derived_views v.items)) }
    ensures written { IfOk result (λ v. AreWellMade g.now.n (derived_views v.items)) }
{
    let ancestors = ancestors_of(g, x, y, z);
    let found = districts(g, ancestors);
    derive_parts(alloc, g, ancestors, &found.sets[..found.count as usize])
}
