//! Identification of a nested effect from a graph.

ghost use Rattle.std.specs.Prelude.{ℕ, ◌≡◌, ◌<◌, IfOk, IsTrue, ◌↔◌};
ghost use Rattle.mixed_graph.specs.Vocabulary.{has, union, Within, Apart, graph_of};
ghost use Rattle.hedge.specs.declared.hedge.Hedge.{Hedge as HedgeData};
ghost use Rattle.hedge.specs.Vocabulary.{IsHedge};
ghost use Rattle.prob_expr.specs.Vocabulary.{PlainFormula};
ghost use Rattle.identification_theory.specs.Vocabulary.{IsIdentified};
ghost use Rattle.natural_id.specs.Answers.{IfFormula, IsRight, IsFound, IsSettled, IsWitnessOrNone, is_hedge};
ghost use Rattle.natural_id.specs.Parts.{IsFormulaByParts, IsNaturalTarget};

use crate::answers::{Natural, NaturalFormula, Witness};
use crate::parts::{Parted, parts_of};
use crate::ways::{leading_past, leading_through};
use counter_models::CounterPair;
use hedge::Hedge;
use hedge::joined_sets::districts;
use identify::{FormulaAnswer, ancestors_outside, identify_formula};
use mixed_graph::{Graph, VSet, joined};
use std::alloc::{AllocError, Global};

/// A hedge for an effect with its two models, or that the effect has a formula.
#[derive(Drop)]
enum Settled {
    Hedge(Hedge, CounterPair),
    Formula,
}

/// Whether the effect of x on y has a formula, or its hedge.
fn settle(alloc: Global, g: &Graph, x: VSet, y: VSet) -> Result<Settled, AllocError>
    requires x_within { Within g.now.n (has x.bits) }
    requires y_within { Within g.now.n (has y.bits) }
    requires apart { Apart (has x.bits) (has y.bits) }
    requires some { 0 < y.bits }
    ensures { IfOk result (IsSettled (graph_of g.now) x.bits y.bits) }
{
    match identify_formula(alloc, g, x, y)? {
        FormulaAnswer::Hedge(hedge, pair) => Ok(Settled::Hedge(hedge, pair)),
        FormulaAnswer::Formula(_) => Ok(Settled::Formula),
    }
}

/// A child of x that leads to y both through m and past it.
pub fn witness_of(g: &Graph, x: VSet, children: VSet, through: VSet, past: VSet) -> Option<Witness>
    requires children { (v : ℕ) → IsTrue (has children.bits v) ↔ ((p : ℕ) × IsTrue (has x.bits p) × IsTrue ((graph_of g.now).arrow p v)) }
    ensures { IsWitnessOrNone (graph_of g.now) x.bits through.bits past.bits result }
{
    let both = children.intersection(through).intersection(past);
    if both.is_empty() {
        return None;
    }
    let child = both.lowest();
    let treatment = x.intersection(g.parents(child)).lowest();
    Some(Witness { treatment, child })
}

/// The answer where P(y, z | do(x)) has a formula.
fn by_parts(
    alloc: Global,
    g: &Graph,
    x: VSet,
    m: VSet,
    y: VSet,
    z: VSet,
) -> Result<Natural, AllocError>
    requires target { IsNaturalTarget (graph_of g.now) x.bits m.bits y.bits z.bits }
    requires m_within { Within g.now.n (has m.bits) }
    requires x_some { 0 < x.bits }
    requires found { (f : PlainFormula) × IsIdentified (graph_of g.now) x.bits (union y.bits z.bits) f }
    ensures { IfOk result (IsFound (graph_of g.now) x.bits m.bits y.bits z.bits) }
{
    let children = joined(&g.children, x);
    let past = leading_past(g, x, m, y);
    let through = leading_through(g, x, m, past, y);
    if let Some(witness) = witness_of(g, x, children, through, past) {
        return Ok(Natural::Witness(witness));
    }
    let joint = y.union(z);
    let d = ancestors_outside(g, x, joint);
    let parts = districts(g, d);
    match parts_of(alloc, g, x, through, d, &parts)? {
        Parted::Parts(parts) => Ok(Natural::Formula(NaturalFormula {
            summed: d.difference(joint),
            parts,
        })),
        Parted::Split(split) => Ok(Natural::Split(split)),
    }
}

/// A formula for P(y[x, m[x']] | z) from what is observed; or why there is none: a recanting witness, a district that reads both values
/// of a treatment, or a hedge for P(y, z | do(x)) with its two models.
///
/// The only error is want of memory.
pub fn natural(
    alloc: Global,
    g: &Graph,
    x: VSet,
    m: VSet,
    y: VSet,
    z: VSet,
) -> Result<Natural, AllocError>
    requires target { IsNaturalTarget (graph_of g.now) x.bits m.bits y.bits z.bits }
    requires m_within { Within g.now.n (has m.bits) }
    requires x_some { 0 < x.bits }
    requires y_some { 0 < y.bits }
    ensures right { IfOk result (IsRight (graph_of g.now) x.bits m.bits y.bits z.bits) }
    ensures exact { IfOk result (λ a. IsTrue (is_hedge a) ↔ ((h : HedgeData) × IsHedge (graph_of g.now) x.bits (union y.bits z.bits) h)) }
    ensures formula { IfOk result (λ a. IfFormula a (IsFormulaByParts (graph_of g.now) x.bits m.bits y.bits z.bits)) }
{
    let joint = y.union(z);
    match settle(alloc, g, x, joint)? {
        Settled::Hedge(hedge, pair) => Ok(Natural::Hedge(hedge, pair)),
        Settled::Formula => by_parts(alloc, g, x, m, y, z),
    }
}
