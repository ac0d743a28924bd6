//! The chain of all vertices of the effect, each brought to its district.

ghost use Rattle.std.specs.Prelude.{◌≡◌, ◌+◌, ℕ, ◌<◌, ◌≤◌, IfOk, OnOk, cond, All, length};
ghost use Rattle.mixed_graph.specs.Vocabulary.{has};
ghost use Rattle.hedge.specs.Vocabulary.{first_masks};
ghost use Rattle.do_derivation.specs.Vocabulary.{steps_view, listed};
ghost use Rattle.identification_theory.specs.Vocabulary.{in_order, home, home_list, home_lists, Lists, more};
ghost use Rattle.identify.specs.Lists.{lists_onto, lists_view};

use crate::factors::push_with;
use do_derivation::{Move, SetMove, Step};
use hedge::joined_sets::Districts;
use mixed_graph::{Order, VSet};
use std::alloc::{AllocError, Global};

/// The first of the sets that has v; where none has it, the set without a member.
fn home(parts: &Districts, v: u8) -> VSet
    requires { v < 64 }
    ensures { result.bits ≡ home (first_masks parts.now.sets parts.now.count) v }
{
    for t in &parts.sets[..parts.count as usize] {
        if t.has(v) {
            return *t;
        }
    }
    VSet::EMPTY
}

/// From the term of a vertex in the chain of d to that in the chain of its district t, where `before` has the vertices before it.
fn home_list(alloc: Global, d: VSet, t: VSet, before: VSet) -> Result<Vec<Step>, AllocError>
    ensures { IfOk result (λ l. steps_view l.items ≡ home_list d.bits t.bits before.bits) }
{
    let earlier = d.intersection(before).difference(t);
    let later = d.difference(t).difference(earlier);
    let mut out = Vec::new(alloc);
    push_with(
        &mut out,
        earlier,
        Step::Make(Move::WithSet(SetMove::Rule2Do, earlier)),
    )?;
    push_with(
        &mut out,
        later,
        Step::Make(Move::WithSet(SetMove::Rule3In, later)),
    )?;
    Ok(out)
}

/// Adds the list of v, where v is in d.
fn push_home(
    alloc: Global,
    out: &mut Vec<Vec<Step>>,
    d: VSet,
    parts: &Districts,
    before: VSet,
    v: u8,
) -> Result<(), AllocError>
    requires { v < 64 }
    ensures list { OnOk result ((rest : Lists) → lists_onto out.new.items rest
        ≡ lists_onto out.old.items (cond (has d.bits v) (more (home_list d.bits (home (first_masks parts.now.sets parts.now.count) v) before.bits) rest) rest)) }
    ensures few { OnOk result (length out.new.items ≤ length out.old.items + 1) }
{
    if !d.has(v) {
        return Ok(());
    }
    out.push(home_list(alloc, d, home(parts, v), before)?)?;
    Ok(())
}

/// One such list for each member of d in the order.
pub fn home_lists(
    alloc: Global,
    order: &Order,
    d: VSet,
    parts: &Districts,
) -> Result<Vec<Vec<Step>>, AllocError>
    requires { All (λ v. v < 64) (listed order.now) }
    ensures lists { IfOk result (λ l. lists_view l.items ≡ home_lists d.bits (first_masks parts.now.sets parts.now.count) 0 (listed order.now)) }
    ensures few { IfOk result (λ l. length l.items ≤ 64) }
{
    let mut lists = Vec::new(alloc);
    let mut before = VSet::EMPTY;
    for v in &order.list[..order.count as usize] {
        push_home(alloc, &mut lists, d, parts, before, *v)?;
        before = before.union(VSet::one(*v));
    }
    Ok(lists)
}
