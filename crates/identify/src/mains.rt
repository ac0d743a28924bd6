//! The steps of main, from P(y | do(x)) to the formula's main expression.

ghost use Rattle.std.specs.Prelude.{◌≡◌, ℕ, ◌<◌, ◌≤◌, IfOk, OnOk, length, All};
ghost use Rattle.mixed_graph.specs.Vocabulary.{IsOrder, graph_of};
ghost use Rattle.hedge.specs.Vocabulary.{first_masks};
ghost use Rattle.prob_expr.specs.Vocabulary.{Trees, views, formula_view};
ghost use Rattle.do_derivation.specs.Plans.{Plans};
ghost use Rattle.do_derivation.specs.Vocabulary.{no_plans, has_product, steps_view, listed, derivation_view};
ghost use Rattle.identification_theory.specs.Vocabulary.{unwrap_steps, district_steps, main_steps};
ghost use Rattle.identify.specs.Lists.{onto, lists_view};
ghost use Rattle.identify.specs.Factored.{AreAssembled};

use crate::answer::Factors;
use crate::expressions::product_of;
use crate::factors::{push_at, push_each, push_with, sum_if};
use crate::groups::{in_order, push_groups};
use crate::homes::home_lists;
use crate::wanted::Wanted;
use do_derivation::{BareMove, Derivation, Move, SetMove, Step, has_product};
use hedge::joined_sets::Districts;
use mixed_graph::{Graph, Order, VSet};
use prob_expr::{Expr, Formula};
use std::alloc::{AllocError, Global};

/// Adds the step that opens products, where a factor is one.
fn push_unwrap(out: &mut Vec<Step>, opens: bool) -> Result<(), AllocError>
    ensures { OnOk result ((fs : Trees) → has_product fs ≡ opens → steps_view out.new.items ≡ onto out.old.items (unwrap_steps fs)) }
{
    if !opens {
        return Ok(());
    }
    out.push(Step::Make(Move::Bare(BareMove::Unwrap)))?;
    Ok(())
}

/// The steps from the term of d to the product of the factors of its districts, which have these lists of steps.
fn district_steps(
    alloc: Global,
    order: &Order,
    d: VSet,
    parts: &Districts,
    lists: Vec<Vec<Step>>,
    opens: bool,
) -> Result<Vec<Step>, AllocError>
    requires order { All (λ v. v < 64) (listed order.now) }
    requires counted { length lists.items ≡ length (first_masks parts.now.sets parts.now.count) }
    ensures { IfOk result (λ l. (fs : Trees) → has_product fs ≡ opens
        → steps_view l.items ≡ district_steps (listed order.now) d.bits (first_masks parts.now.sets parts.now.count) (lists_view lists.items) fs) }
{
    let mut lists = lists;
    if lists.len() < 2 {
        let Some(list) = lists.pop() else {
            return Ok(Vec::new(alloc));
        };
        return Ok(list);
    }
    let chain = in_order(order, d);
    let mut out = Vec::new(alloc);
    out.push(Step::Make(Move::Chain(chain)))?;
    push_each(alloc, &mut out, home_lists(alloc, order, d, parts)?)?;
    push_groups(alloc, &mut out, order, &chain, parts)?;
    push_each(alloc, &mut out, lists)?;
    push_unwrap(&mut out, opens)?;
    Ok(out)
}

/// The steps from P(y | do(x)) on, where `rest` are those from the term of d, the ancestors of y once x is left out.
fn main_steps(
    alloc: Global,
    n: u32,
    x: VSet,
    y: VSet,
    d: VSet,
    rest: Vec<Step>,
) -> Result<Vec<Step>, AllocError>
    requires { n ≤ 64 }
    ensures { IfOk result (λ l. steps_view l.items ≡ main_steps n x.bits y.bits d.bits (steps_view rest.items)) }
{
    let others = VSet::below(n).difference(x).difference(d);
    let further = d.difference(y);
    let mut rest = rest;
    let mut out = Vec::new(alloc);
    push_with(
        &mut out,
        others,
        Step::Make(Move::WithSet(SetMove::Rule3In, others)),
    )?;
    if further.is_empty() {
        out.append(&mut rest)?;
        return Ok(out);
    }
    out.push(Step::Make(Move::WithSet(SetMove::Widen, further)))?;
    push_at(alloc, &mut out, 0, rest)?;
    Ok(out)
}

/// The steps from P(y | do(x)) to the formula of factors with these values and these lists of steps, where they are wanted.
fn wanted_steps(
    alloc: Global,
    wanted: Wanted,
    n: u32,
    x: VSet,
    y: VSet,
    d: VSet,
    order: &Order,
    parts: &Districts,
    values: &Vec<Expr>,
    lists: Vec<Vec<Step>>,
) -> Result<Vec<Step>, AllocError>
    requires few { n ≤ 64 }
    requires order { All (λ v. v < 64) (listed order.now) }
    requires counted { length lists.items ≡ length (first_masks parts.now.sets parts.now.count) }
    ensures { IfOk result (λ l. wanted ≡ Wanted.Derivation → steps_view l.items ≡ main_steps n x.bits y.bits d.bits
        (district_steps (listed order.now) d.bits (first_masks parts.now.sets parts.now.count) (lists_view lists.items) (views values.now.items))) }
{
    match wanted {
        Wanted::Formula => Ok(Vec::new(alloc)),
        Wanted::Derivation => {
            let rest = district_steps(alloc, order, d, parts, lists, has_product(values))?;
            let steps = main_steps(alloc, n, x, y, d, rest)?;
            Ok(steps)
        }
    }
}

/// The formula and the derivation of these factors of the districts of d, the ancestors of y once x is left out.
///
/// The steps of the derivation are made where they are wanted.
pub fn assembled(
    alloc: Global,
    wanted: Wanted,
    g: &Graph,
    x: VSet,
    y: VSet,
    d: VSet,
    order: &Order,
    parts: &Districts,
    made: Factors,
) -> Result<(Formula, Derivation), AllocError>
    requires order { IsOrder (graph_of g.now) order.now.list order.now.count }
    requires counted { length made.lists.items ≡ length (first_masks parts.now.sets parts.now.count) }
    ensures { IfOk result (λ p. AreAssembled wanted g.now.n (listed order.now) (first_masks parts.now.sets parts.now.count) x.bits y.bits d.bits made
        (formula_view p.0) (derivation_view p.1)) }
{
    let lists = made.lists;
    let steps = wanted_steps(
        alloc,
        wanted,
        g.n,
        x,
        y,
        d,
        order,
        parts,
        &made.values,
        lists,
    )?;
    let body = product_of(alloc, made.values)?;
    let main = sum_if(alloc, d.difference(y), body)?;
    let formula = Formula {
        defs: made.defs,
        main,
    };
    let derivation = Derivation {
        lemmas: made.lemmas,
        main: Step::Then(steps),
    };
    Ok((formula, derivation))
}
