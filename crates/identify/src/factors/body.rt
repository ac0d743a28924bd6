//! The factor of a district that is read directly from a distribution: the product of its
//! vertices' factors.

ghost use Rattle.std.specs.Prelude.{◌≡◌, ◌<◌, ◌≤◌, ℕ, All, length, IfOk};
ghost use Rattle.mixed_graph.specs.Vocabulary.{has, Within, graph_of};
ghost use Rattle.do_derivation.specs.Plans.{plan};
ghost use Rattle.do_derivation.specs.Vocabulary.{no_plans, listed, step_view, steps_view};
ghost use Rattle.identification_theory.specs.Vocabulary.{at_each, body_steps, in_order};
ghost use Rattle.identify.specs.Lists.{lists_view};
ghost use Rattle.identify.specs.Parts.{source_of};
ghost use Rattle.identify.specs.Bodies.{ArePlaces, IsBodyOf};

use crate::factors::moves::members_in;
use crate::factors::place::{VertexFactor, place_of};
use crate::factors::pushing::push_each;
use crate::factors::terms::Source;
use crate::wanted::Wanted;
use do_derivation::{Move, Step, as_one};
use mixed_graph::{Graph, Order, VSet};
use prob_expr::Expr;
use std::alloc::{AllocError, Global};

/// The factors of the members of a district in the order, and for each the steps to it, where these are wanted.
#[derive(Drop)]
struct Places {
    factors: Vec<Expr>,
    lists: Vec<Vec<Step>>,
}

/// The factor of a district, and the steps that make it of the district's term, where these are wanted.
#[derive(Drop)]
pub struct Body {
    pub value: Expr,
    pub steps: Vec<Step>,
}

/// The factors of the members of the district t of a.
fn places_of(
    alloc: Global,
    wanted: Wanted,
    g: &Graph,
    order: &[u8],
    from: Source,
    a: VSet,
    t: VSet,
) -> Result<Places, AllocError>
    requires vertices { All (λ v. v < g.now.n) order.now }
    requires within { Within g.now.n (has a.bits) }
    ensures { IfOk result (ArePlaces wanted (graph_of g.now) order.now (source_of from) a.bits t.bits) }
{
    let mut factors = Vec::new(alloc);
    let mut lists = Vec::new(alloc);
    let mut before = VSet::EMPTY;
    for v in order {
        if t.has(*v) {
            let VertexFactor { term, steps } = place_of(alloc, wanted, g, from, a, t, before, *v)?;
            factors.push(term)?;
            lists.push(steps)?;
        }
        before = before.union(VSet::one(*v));
    }
    Ok(Places { factors, lists })
}

/// The first step, and then each list at its factor.
fn at_each(alloc: Global, first: Step, lists: Vec<Vec<Step>>) -> Result<Vec<Step>, AllocError>
    requires { length lists.items ≤ 64 }
    ensures { IfOk result (λ s. steps_view s.items ≡ plan (step_view first) (at_each 0 (lists_view lists.items) no_plans)) }
{
    let mut steps = vec![in alloc; first]?;
    push_each(alloc, &mut steps, lists)?;
    Ok(steps)
}

/// One member: its list; several: the chain, and each list at its factor.
fn body_steps(alloc: Global, members: Order, lists: Vec<Vec<Step>>) -> Result<Vec<Step>, AllocError>
    requires { length lists.items ≡ members.count }
    ensures { IfOk result (λ s. steps_view s.items ≡ body_steps (listed members) (lists_view lists.items)) }
{
    let mut lists = lists;
    if lists.len() > 1 {
        return at_each(alloc, Step::Make(Move::Chain(members)), lists);
    }
    match lists.pop() {
        Some(list) => Ok(list),
        None => Ok(Vec::new(alloc)),
    }
}

/// The steps of the members of t as one list, where they are wanted.
fn wanted_steps(
    alloc: Global,
    wanted: Wanted,
    order: &[u8],
    t: VSet,
    lists: Vec<Vec<Step>>,
) -> Result<Vec<Step>, AllocError>
    requires long { length order.now ≤ 64 }
    requires low { All (λ v. v < 64) order.now }
    requires counted { wanted ≡ Wanted.Derivation → length lists.items ≡ length (in_order t.bits order.now) }
    ensures { IfOk result (λ s. wanted ≡ Wanted.Derivation → steps_view s.items ≡ body_steps (in_order t.bits order.now) (lists_view lists.items)) }
{
    match wanted {
        Wanted::Formula => Ok(Vec::new(alloc)),
        Wanted::Derivation => body_steps(alloc, members_in(order, t), lists),
    }
}

/// The factor of the district t of a, read directly from the source.
pub fn body_of(
    alloc: Global,
    wanted: Wanted,
    g: &Graph,
    order: &[u8],
    from: Source,
    a: VSet,
    t: VSet,
) -> Result<Body, AllocError>
    requires long { length order.now ≤ 64 }
    requires vertices { All (λ v. v < g.now.n) order.now }
    requires within { Within g.now.n (has a.bits) }
    ensures { IfOk result (IsBodyOf wanted (graph_of g.now) order.now (source_of from) a.bits t.bits) }
{
    let Places { factors, lists } = places_of(alloc, wanted, g, order, from, a, t)?;
    let steps = wanted_steps(alloc, wanted, order, t, lists)?;
    Ok(Body {
        value: as_one(factors),
        steps,
    })
}
