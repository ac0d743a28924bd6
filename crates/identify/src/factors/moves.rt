//! The steps that make the expressions of a factor.

ghost use Rattle.std.specs.Prelude.{◌≡◌, ◌<◌, ◌≤◌, All, length, IfOk};
ghost use Rattle.do_derivation.specs.Vocabulary.{listed, steps_view};
ghost use Rattle.identification_theory.specs.Vocabulary.{marginal_steps, source_steps, place_list, cut_steps, in_order};
ghost use Rattle.identify.specs.Parts.{source_of};

use crate::factors::pushing::{at, push_at, push_with};
use crate::factors::terms::Source;
use do_derivation::{BareMove, Move, SetMove, Step};
use mixed_graph::{Order, VSet};
use std::alloc::{AllocError, Global};

/// From P(u | do(all others)) to definition k, of the set a, summed down to u.
fn marginal_steps(alloc: Global, k: u32, a: VSet, u: VSet) -> Result<Vec<Step>, AllocError>
    ensures { IfOk result (λ s. steps_view s.items ≡ marginal_steps k a.bits u.bits) }
{
    let rest = a.difference(u);
    let cited = vec![in alloc; Step::Make(Move::Cite(k))]?;
    if rest.is_empty() {
        return Ok(cited);
    }
    let inner = at(alloc, 0, cited)?;
    Ok(vec![in alloc; Step::Make(Move::WithSet(SetMove::Widen, rest)), inner]?)
}

/// From P(v | do(all outside a), m) to what the source has for it.
pub fn source_steps(
    alloc: Global,
    from: Source,
    a: VSet,
    v: u8,
    m: VSet,
) -> Result<Vec<Step>, AllocError>
    requires { v < 64 }
    ensures { IfOk result (λ s. steps_view s.items ≡ source_steps (source_of from) a.bits v m.bits) }
{
    match from {
        Source::Under(_) => Ok(Vec::new(alloc)),
        Source::Defined(k) => {
            if m.is_empty() {
                return marginal_steps(alloc, k, a, VSet::one(v));
            }
            let top = at(
                alloc,
                0,
                marginal_steps(alloc, k, a, m.union(VSet::one(v)))?,
            )?;
            let bottom = at(alloc, 1, marginal_steps(alloc, k, a, m)?)?;
            Ok(vec![in alloc; Step::Make(Move::Bare(BareMove::Split)), top, bottom]?)
        }
    }
}

/// The rules at the term of one vertex of the district t of a, where `before` has the vertices
/// before it and m is its pillow, and then the rest.
///
/// Rule 3 drops the actions on what comes later or lies outside a, rule 2 makes those on earlier
/// members of a outside t observations, and rule 1 drops what isn't in the pillow.
pub fn place_steps(
    alloc: Global,
    before: VSet,
    universe: VSet,
    a: VSet,
    t: VSet,
    m: VSet,
    rest: Vec<Step>,
) -> Result<Vec<Step>, AllocError>
    ensures { IfOk result (λ s. steps_view s.items ≡ place_list before.bits universe.bits a.bits t.bits m.bits (steps_view rest.items)) }
{
    let earlier = a.intersection(before);
    let acted = earlier.difference(t);
    let idle = universe.difference(t).difference(acted);
    let unneeded = earlier.difference(m);
    let mut rest = rest;
    let mut steps = Vec::new(alloc);
    push_with(
        &mut steps,
        idle,
        Step::Make(Move::WithSet(SetMove::Rule3Out, idle)),
    )?;
    push_with(
        &mut steps,
        acted,
        Step::Make(Move::WithSet(SetMove::Rule2See, acted)),
    )?;
    push_with(
        &mut steps,
        unneeded,
        Step::Make(Move::WithSet(SetMove::Rule1Out, unneeded)),
    )?;
    steps.append(&mut rest)?;
    Ok(steps)
}

/// To a sum over a set of the larger term, whose steps work inside the sum.
pub fn cut_steps(alloc: Global, over: VSet, inner: Vec<Step>) -> Result<Vec<Step>, AllocError>
    ensures { IfOk result (λ s. steps_view s.items ≡ cut_steps over.bits (steps_view inner.items)) }
{
    let mut steps = vec![in alloc;
        Step::Make(Move::WithSet(SetMove::Rule3Out, over)),
        Step::Make(Move::WithSet(SetMove::Widen, over)),
    ]?;
    push_at(alloc, &mut steps, 0, inner)?;
    Ok(steps)
}

/// The members of t in the order.
pub fn members_in(order: &[u8], t: VSet) -> Order
    requires long { length order.now ≤ 64 }
    requires low { All (λ v. v < 64) order.now }
    ensures members { listed result ≡ in_order t.bits order.now }
    ensures count { length (listed result) ≡ result.count }
{
    let mut list = [0u8; 64];
    let mut count = 0usize;
    for v in order {
        if t.has(*v) {
            list[count] = *v;
            count += 1;
        }
    }
    Order {
        list,
        count: count as u32,
    }
}
