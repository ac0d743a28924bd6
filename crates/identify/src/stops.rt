//! The hedge at which the procedure stops, and its two models.

ghost use Rattle.std.specs.Prelude.{◌≡◌, ℕ, ◌<◌, false, if◌then◌else◌, IsTrue, IfOk, slice_index};
ghost use Rattle.mixed_graph.specs.Vocabulary.{has, Within, Apart, graph_of};
ghost use Rattle.hedge.specs.Vocabulary.{IsInside, IsJoinedSet, IsChoiceOf, IsHedge, AreSetsOfHedge};
ghost use Rattle.identification_theory.specs.Vocabulary.{AreRoots};
ghost use Rattle.counter_models.specs.Vocabulary.{IsPairOf};
ghost use Rattle.identify.specs.Hedged.{IsHedgeOf};

use counter_models::{CounterPair, build};
use hedge::Hedge;
use hedge::joined_sets::{Choice, child_choice, links};
use mixed_graph::{Graph, VSet};
use std::alloc::{AllocError, Global};

/// The members of the set without a child in it.
fn roots_of(g: &Graph, set: VSet) -> VSet
    ensures { AreRoots (graph_of g.now) set.bits result.bits }
{
    let mut roots = set;
    for u in 0..64u8 {
        roots = roots.difference(g.parents(u).only_if(set.has(u)));
    }
    roots
}

/// The choice of v: that toward the roots in small, that toward small elsewhere.
fn chosen(small: VSet, inner: &Choice, outer: &Choice, v: u8) -> u8
    requires { v < 64 }
    ensures { result ≡ (if has small.bits v then slice_index inner.now.next v else slice_index outer.now.next v) }
{
    if small.has(v) {
        inner.next[v as usize]
    } else {
        outer.next[v as usize]
    }
}

/// In small the nearest children toward the roots, elsewhere those toward small.
fn choice_of(g: &Graph, small: VSet, big: VSet, roots: VSet) -> Choice
    requires small { Within g.now.n (has small.bits) }
    requires big { Within g.now.n (has big.bits) }
    ensures inner { (v : ℕ) → v < 64 → IsTrue (has small.bits v) → IsChoiceOf (graph_of g.now) (has small.bits) (has roots.bits) v (slice_index result.next v) }
    ensures outer { (v : ℕ) → v < 64 → has small.bits v ≡ false → IsChoiceOf (graph_of g.now) (has big.bits) (has small.bits) v (slice_index result.next v) }
{
    let inner = child_choice(g, small, roots);
    let outer = child_choice(g, big, small);
    let mut next = [64u8; 64];
    for v in 0..64u8 {
        next[v as usize] = chosen(small, &inner, &outer, v);
    }
    Choice { next }
}

/// The hedge of small and big with these roots.
fn hedge_at(g: &Graph, small: VSet, big: VSet, roots: VSet) -> Hedge
    requires within { Within g.now.n (has big.bits) }
    requires some { 0 < small.bits }
    requires inside { IsInside small.bits big.bits }
    requires small_joined { IsJoinedSet (graph_of g.now) small.bits }
    requires big_joined { IsJoinedSet (graph_of g.now) big.bits }
    requires roots { AreRoots (graph_of g.now) small.bits roots.bits }
    ensures small { result.small ≡ small }
    ensures big { result.big ≡ big }
    ensures roots { result.roots ≡ roots }
    ensures data { IsHedgeOf (graph_of g.now) result }
{
    Hedge {
        big,
        small,
        roots,
        choice: choice_of(g, small, big, roots),
        links: links(g, small, big),
    }
}

/// The hedge of small and big for the effect of x on y, its roots those members of small that have no
/// child in it.
pub fn hedge_between(g: &Graph, x: VSet, y: VSet, small: VSet, big: VSet) -> Hedge
    requires { (roots : ℕ) → AreRoots (graph_of g.now) small.bits roots → AreSetsOfHedge (graph_of g.now) x.bits y.bits big.bits small.bits roots }
    ensures small { result.small ≡ small }
    ensures big { result.big ≡ big }
    ensures data { IsHedgeOf (graph_of g.now) result }
    ensures hedge { IsHedge (graph_of g.now) x.bits y.bits result }
{
    let roots = roots_of(g, small);
    hedge_at(g, small, big, roots)
}

/// The hedge of small and big for the effect of x on y, its roots those members of small that have no
/// child in it, and its two models.
pub fn hedge_of(
    alloc: Global,
    g: &Graph,
    x: VSet,
    y: VSet,
    small: VSet,
    big: VSet,
) -> Result<(Hedge, CounterPair), AllocError>
    requires x_within { Within g.now.n (has x.bits) }
    requires y_within { Within g.now.n (has y.bits) }
    requires apart { Apart (has x.bits) (has y.bits) }
    requires some { 0 < y.bits }
    requires hedge { (roots : ℕ) → AreRoots (graph_of g.now) small.bits roots → AreSetsOfHedge (graph_of g.now) x.bits y.bits big.bits small.bits roots }
    ensures small { IfOk result (λ p. p.0.small ≡ small) }
    ensures big { IfOk result (λ p. p.0.big ≡ big) }
    ensures data { IfOk result (λ p. IsHedgeOf (graph_of g.now) p.0) }
    ensures hedge { IfOk result (λ p. IsHedge (graph_of g.now) x.bits y.bits p.0) }
    ensures pair { IfOk result (λ p. IsPairOf (graph_of g.now) x.bits y.bits p.0 p.1) }
{
    let hedge = hedge_between(g, x, y, small, big);
    let pair = build(alloc, g, x, y, &hedge)?;
    Ok((hedge, pair))
}
