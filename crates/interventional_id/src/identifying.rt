//! Identification of an interventional effect.

ghost use Rattle.std.specs.Prelude.{◌<◌, IfOk};
ghost use Rattle.mixed_graph.specs.Vocabulary.{has, graph_of};
ghost use Rattle.do_rules.specs.Vocabulary.{AreThreeSets, AreFourSets};
ghost use Rattle.prob_expr.specs.Vocabulary.{target_view};
ghost use Rattle.interventional_id.specs.Answers.{IsFormulaOrNone, IsRight};

use crate::answer::Interventional;
use conditional_id::{Conditional, identify_given};
use mixed_graph::{Graph, VSet};
use prob_expr::{Formula, Target};
use std::alloc::{AllocError, Global};

/// A formula for an effect from what is observed, where it has one.
fn formula_of(alloc: Global, g: &Graph, t: Target) -> Result<Option<Formula>, AllocError>
    requires sets { AreThreeSets g.now.n (has t.x.bits) (has t.y.bits) (has t.given.bits) }
    requires some { 0 < t.y.bits }
    ensures { IfOk result (IsFormulaOrNone (graph_of g.now) (target_view t)) }
{
    match identify_given(alloc, g, &t)? {
        Conditional::Formula(formula, _) => Ok(Some(formula)),
        Conditional::Joint { .. } => Ok(None),
    }
}

/// Formulas for P(m | do(x), z) and P(y | do(x, m), z) from what is observed; none where one of them has none.
///
/// The only error is want of memory.
pub fn interventional(
    alloc: Global,
    g: &Graph,
    x: VSet,
    m: VSet,
    y: VSet,
    z: VSet,
) -> Result<Option<Interventional>, AllocError>
    requires sets { AreFourSets g.now.n (has x.bits) (has y.bits) (has m.bits) (has z.bits) }
    requires some_m { 0 < m.bits }
    requires some_y { 0 < y.bits }
    ensures { IfOk result (IsRight (graph_of g.now) x.bits m.bits y.bits z.bits) }
{
    let on_mediators = Target { x, y: m, given: z };
    let on_outcome = Target {
        x: x.union(m),
        y,
        given: z,
    };
    let Some(mediators) = formula_of(alloc, g, on_mediators)? else {
        return Ok(None);
    };
    let Some(outcome) = formula_of(alloc, g, on_outcome)? else {
        return Ok(None);
    };
    Ok(Some(Interventional { mediators, outcome }))
}
