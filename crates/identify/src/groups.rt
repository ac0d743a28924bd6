//! The factors of each district brought together: the groups of the chain, each one term again.

ghost use Rattle.std.specs.Prelude.{◌≡◌, ℕ, ◌<◌, ◌≤◌, IfOk, OnOk, All, length};
ghost use Rattle.hedge.specs.Vocabulary.{first_masks};
ghost use Rattle.do_derivation.specs.Plans.{Plans};
ghost use Rattle.do_derivation.specs.Vocabulary.{steps_view, listed, numbers_of};
ghost use Rattle.identification_theory.specs.Vocabulary.{in_order, places, group_lists, two_or_more, has_pair, unchain_steps, unchain_lists, group_steps};
ghost use Rattle.identify.specs.Lists.{onto, lists_view};

use crate::factors::{members_in, push_each};
use do_derivation::{BareMove, Move, Step};
use hedge::joined_sets::Districts;
use mixed_graph::{Order, VSet};
use std::alloc::{AllocError, Global};

/// The members of t in the order.
pub fn in_order(order: &Order, t: VSet) -> Order
    requires { All (λ v. v < 64) (listed order.now) }
    ensures members { listed result ≡ in_order t.bits (listed order.now) }
    ensures count { length (listed result) ≡ result.count }
{
    members_in(&order.list[..order.count as usize], t)
}

/// Whether t has two members in the order.
fn is_pair(order: &Order, t: VSet) -> bool
    requires { All (λ v. v < 64) (listed order.now) }
    ensures { result ≡ two_or_more (in_order t.bits (listed order.now)) }
{
    in_order(order, t).count >= 2
}

/// Whether some district has two members in the order.
fn has_pair(order: &Order, parts: &Districts) -> bool
    requires { All (λ v. v < 64) (listed order.now) }
    ensures { result ≡ has_pair (listed order.now) (first_masks parts.now.sets parts.now.count) }
{
    for t in &parts.sets[..parts.count as usize] {
        if is_pair(order, *t) {
            return true;
        }
    }
    false
}

/// The places of the members of t in the chain.
fn places(alloc: Global, t: VSet, chain: &Order) -> Result<Vec<u32>, AllocError>
    requires { All (λ v. v < 64) (listed chain.now) }
    ensures { IfOk result (λ l. l.items ≡ places t.bits 0 (listed chain.now)) }
{
    let mut found = Vec::new(alloc);
    let mut i = 0u32;
    for v in &chain.list[..chain.count as usize] {
        if t.has(*v) {
            found.push(i)?;
        }
        i += 1;
    }
    Ok(found)
}

/// The places of the members of each district.
fn group_lists(alloc: Global, parts: &Districts, chain: &Order) -> Result<Vec<Vec<u32>>, AllocError>
    requires { All (λ v. v < 64) (listed chain.now) }
    ensures { IfOk result (λ l. numbers_of l.items ≡ group_lists (first_masks parts.now.sets parts.now.count) (listed chain.now)) }
{
    let mut groups = Vec::new(alloc);
    for t in &parts.sets[..parts.count as usize] {
        groups.push(places(alloc, *t, chain)?)?;
    }
    Ok(groups)
}

/// The factors of several members are one term again.
fn unchain_list(alloc: Global, t: VSet, chain: &Order) -> Result<Vec<Step>, AllocError>
    requires { All (λ v. v < 64) (listed chain.now) }
    ensures { IfOk result (λ l. steps_view l.items ≡ unchain_steps (in_order t.bits (listed chain.now))) }
{
    let mut out = Vec::new(alloc);
    if !is_pair(chain, t) {
        return Ok(out);
    }
    out.push(Step::Make(Move::Bare(BareMove::Unchain)))?;
    Ok(out)
}

/// Those of each district.
fn unchain_lists(
    alloc: Global,
    parts: &Districts,
    chain: &Order,
) -> Result<Vec<Vec<Step>>, AllocError>
    requires { All (λ v. v < 64) (listed chain.now) }
    ensures lists { IfOk result (λ l. lists_view l.items ≡ unchain_lists (first_masks parts.now.sets parts.now.count) (listed chain.now)) }
    ensures few { IfOk result (λ l. length l.items ≤ 64) }
{
    let mut lists = Vec::new(alloc);
    for t in &parts.sets[..parts.count as usize] {
        lists.push(unchain_list(alloc, *t, chain)?)?;
    }
    Ok(lists)
}

/// Adds the steps after which the factors of each district are one term, where some district has two members.
pub fn push_groups(
    alloc: Global,
    out: &mut Vec<Step>,
    order: &Order,
    chain: &Order,
    parts: &Districts,
) -> Result<(), AllocError>
    requires order { All (λ v. v < 64) (listed order.now) }
    requires chain { All (λ v. v < 64) (listed chain.now) }
    ensures { OnOk result ((rest : Plans) → onto out.new.items rest
        ≡ onto out.old.items (group_steps (listed order.now) (listed chain.now) (first_masks parts.now.sets parts.now.count) rest)) }
{
    if !has_pair(order, parts) {
        return Ok(());
    }
    out.push(Step::Make(Move::Group(group_lists(alloc, parts, chain)?)))?;
    push_each(alloc, out, unchain_lists(alloc, parts, chain)?)?;
    Ok(())
}
