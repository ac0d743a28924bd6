//! A move made at its place, with the nodes counted.

ghost use Rattle.std.specs.Prelude.{◌≡◌, ◌<◌, ◌+◌, ℕ, List, true, length, Some};
ghost use Rattle.mixed_graph.specs.Vocabulary.{MixedGraph, graph_of};
ghost use Rattle.prob_expr.specs.Vocabulary.{cap, masks_of, are_terms, are_terms_each, views};
ghost use Rattle.prob_expr.specs.Tree.{Tree};
ghost use Rattle.prob_expr.specs.View.{view};
ghost use Rattle.do_derivation.specs.Applied.{IsRow, IsApplied, IsAppliedBoxed, AreApplied, IsAppliedAt};
ghost use Rattle.do_derivation.specs.Plans.{Move as PlainMove, Plan};
ghost use Rattle.do_derivation.specs.Shapes.{factor_at, with_factor};
ghost use Rattle.do_derivation.specs.Table.{row};
ghost use Rattle.do_derivation.specs.View.{move_view, step_view, steps_view};

use crate::faults::{Refusal, StepFault};
use crate::moves::{BareMove, Move, SetMove};
use crate::product_moves::{group, unchain, unwrap};
use crate::rule_moves::{rule1_in, rule1_out, rule2_do, rule2_see, rule3_in, rule3_out};
use crate::steps::Step;
use crate::term_moves::{chain, cite, narrow, split, widen};
use mixed_graph::{Graph, VSet};
use prob_expr::Expr;
use std::alloc::Global;
use std::mem;

// Counts a node.
fn tick(count: &mut u32)
    ensures { count.new ≡ cap (count.old + 1) }
{
    *count = count.saturating_add(1);
}

// What a move made, its node counted.
#[tactic(auto, using(crate::proofs::Turns::row_applied))]
fn counted(count: &mut u32, made: Result<Expr, Refusal>) -> Result<Expr, Refusal>
    ensures { (g : MixedGraph) (lemmas : List ℕ) (m : PlainMove) (e : Tree) → IsRow g (row g.vertices lemmas m e) made → IsApplied g lemmas (Plan.Make m) e count.old count.new result }
{
    tick(count);
    made
}

// Takes factor k out, and leaves a mark in its place.
#[tactic(auto, using(crate::proofs::Lists::factor_some, crate::proofs::Lists::factor_hole))]
fn take_factor(factors: &mut Vec<Expr>, k: usize) -> Expr
    requires within { k < length factors.old.items }
    ensures taken { factor_at (views factors.old.items) k ≡ Some (view result) }
    ensures rest { (x : Tree) → with_factor (views factors.new.items) k x ≡ with_factor (views factors.old.items) k x }
    ensures long { length factors.new.items ≡ length factors.old.items }
{
    mem::replace(&mut factors[k], Expr::Named(0))
}

#[tactic(auto, using(crate::proofs::Lists::factor_set))]
fn put_factor(factors: &mut Vec<Expr>, k: usize, x: Expr)
    requires within { k < length factors.old.items }
    ensures put { views factors.new.items ≡ with_factor (views factors.old.items) k (view x) }
{
    factors[k] = x;
}

// What a move with a set makes.
fn make_with_set(alloc: Global, g: &Graph, kind: SetMove, z: VSet, e: Expr) -> Result<Expr, Refusal>
    requires terms { are_terms g.now.n (view e) ≡ true }
    ensures row { (lemmas : List ℕ) → IsRow (graph_of g.now) (row g.now.n lemmas (PlainMove.WithSet kind z.bits) (view e)) result }
{
    match kind {
        SetMove::Rule1In => rule1_in(g, z, e),
        SetMove::Rule1Out => rule1_out(g, z, e),
        SetMove::Rule2See => rule2_see(g, z, e),
        SetMove::Rule2Do => rule2_do(g, z, e),
        SetMove::Rule3In => rule3_in(g, z, e),
        SetMove::Rule3Out => rule3_out(g, z, e),
        SetMove::Widen => widen(alloc, g, z, e),
    }
}

// What a move without an argument makes.
fn make_bare(alloc: Global, g: &Graph, kind: BareMove, e: Expr) -> Result<Expr, Refusal>
    ensures row { (lemmas : List ℕ) → IsRow (graph_of g.now) (row g.now.n lemmas (PlainMove.Bare kind) (view e)) result }
{
    match kind {
        BareMove::Unchain => unchain(g, e),
        BareMove::Narrow => narrow(g, e),
        BareMove::Split => split(alloc, g, e),
        BareMove::Unwrap => unwrap(alloc, g, e),
    }
}

// What a move makes.
fn make(alloc: Global, g: &Graph, lemmas: &[VSet], done: &Move, e: Expr) -> Result<Expr, Refusal>
    requires terms { are_terms g.now.n (view e) ≡ true }
    ensures row { IsRow (graph_of g.now) (row g.now.n (masks_of lemmas.now) (move_view done.now) (view e)) result }
{
    match done {
        Move::WithSet(kind, z) => make_with_set(alloc, g, *kind, *z, e),
        Move::Bare(kind) => make_bare(alloc, g, *kind, e),
        Move::Chain(order) => chain(alloc, g, order, e),
        Move::Group(groups) => group(alloc, g, groups, e),
        Move::Cite(k) => cite(g, lemmas, *k, e),
    }
}

/// Applies a step and counts its nodes; at a refusal the counter stands at the number of the refused node.
#[cycle(applying)]
pub fn apply_step(
    alloc: Global,
    g: &Graph,
    lemmas: &[VSet],
    step: &Step,
    e: Expr,
    count: &mut u32,
) -> Result<Expr, Refusal>
    requires terms { are_terms g.now.n (view e) ≡ true }
    ensures applied { IsApplied (graph_of g.now) (masks_of lemmas.now) (step_view step.now) (view e) count.old count.new result }
{
    match step {
        Step::Make(done) => counted(count, make(alloc, g, lemmas, done, e)),
        Step::At(i, inner) => apply_child(alloc, g, lemmas, *i, inner, e, count),
        Step::Then(steps) => apply_all(alloc, g, lemmas, steps, e, count),
    }
}

// Applies a step to what stands in a box.
#[cycle(applying)]
fn apply_boxed(
    alloc: Global,
    g: &Graph,
    lemmas: &[VSet],
    step: &Step,
    body: Box<Expr>,
    count: &mut u32,
) -> Result<Box<Expr>, Refusal>
    requires terms { are_terms g.now.n (view body.value) ≡ true }
    ensures applied { IsAppliedBoxed (graph_of g.now) (masks_of lemmas.now) (step_view step.now) (view body.value) count.old count.new result }
{
    match apply_step(alloc, g, lemmas, step, Box::into_inner(body), count) {
        Err(Refusal::Fault(fault)) => Err(Refusal::Fault(fault)),
        Err(Refusal::NoMemory) => Err(Refusal::NoMemory),
        Ok(made) => match Box::new(alloc, made) {
            Ok(body) => Ok(body),
            Err(_) => Err(Refusal::NoMemory),
        },
    }
}

// Applies a step to a child, and counts the node of the `At`.
#[cycle(applying)]
fn apply_child(
    alloc: Global,
    g: &Graph,
    lemmas: &[VSet],
    i: u32,
    inner: &Step,
    e: Expr,
    count: &mut u32,
) -> Result<Expr, Refusal>
    requires terms { are_terms g.now.n (view e) ≡ true }
    ensures applied { IsApplied (graph_of g.now) (masks_of lemmas.now) (Plan.At i (step_view inner.now)) (view e) count.old count.new result }
{
    tick(count);
    match e {
        Expr::Sum { over, body } => {
            if i != 0 {
                return Err(Refusal::Fault(StepFault::NoPlace(i)));
            }
            match apply_boxed(alloc, g, lemmas, inner, body, count) {
                Ok(body) => Ok(Expr::Sum { over, body }),
                Err(refusal) => Err(refusal),
            }
        }
        Expr::Quotient { top, bottom } => {
            if i == 0 {
                match apply_boxed(alloc, g, lemmas, inner, top, count) {
                    Ok(top) => Ok(Expr::Quotient { top, bottom }),
                    Err(refusal) => Err(refusal),
                }
            } else if i == 1 {
                match apply_boxed(alloc, g, lemmas, inner, bottom, count) {
                    Ok(bottom) => Ok(Expr::Quotient { top, bottom }),
                    Err(refusal) => Err(refusal),
                }
            } else {
                Err(Refusal::Fault(StepFault::NoPlace(i)))
            }
        }
        Expr::Product(factors) => apply_factor(alloc, g, lemmas, i, inner, factors, count),
        _ => Err(Refusal::Fault(StepFault::NoPlace(i))),
    }
}

// Applies a step to a factor of a product.
#[cycle(applying)]
#[tactic(auto, using(crate::proofs::Lists::factor_none))]
fn apply_factor(
    alloc: Global,
    g: &Graph,
    lemmas: &[VSet],
    i: u32,
    inner: &Step,
    factors: Vec<Expr>,
    count: &mut u32,
) -> Result<Expr, Refusal>
    requires terms { are_terms_each g.now.n (views factors.items) ≡ true }
    ensures applied { IsAppliedAt (graph_of g.now) (masks_of lemmas.now) i (step_view inner.now) (views factors.items) count.old count.new result }
{
    let mut factors = factors;
    let k = i as usize;
    if k >= factors.len() {
        return Err(Refusal::Fault(StepFault::NoPlace(i)));
    }
    let child = take_factor(&mut factors, k);
    match apply_step(alloc, g, lemmas, inner, child, count) {
        Err(Refusal::Fault(fault)) => Err(Refusal::Fault(fault)),
        Err(Refusal::NoMemory) => Err(Refusal::NoMemory),
        Ok(made) => {
            put_factor(&mut factors, k, made);
            Ok(Expr::Product(factors))
        }
    }
}

// Applies steps in turn.
#[cycle(applying)]
fn apply_all(
    alloc: Global,
    g: &Graph,
    lemmas: &[VSet],
    steps: &[Step],
    e: Expr,
    count: &mut u32,
) -> Result<Expr, Refusal>
    requires terms { are_terms g.now.n (view e) ≡ true }
    ensures applied { AreApplied (graph_of g.now) (masks_of lemmas.now) (steps_view steps.now) (view e) count.old count.new result }
{
    let mut made = e;
    for i in 0..steps.len() {
        match apply_step(alloc, g, lemmas, &steps[i], made, count) {
            Err(Refusal::Fault(fault)) => return Err(Refusal::Fault(fault)),
            Err(Refusal::NoMemory) => return Err(Refusal::NoMemory),
            Ok(next) => {
                made = next;
            }
        }
    }
    Ok(made)
}
