//! A separating set without members that it doesn't need.

ghost use Rattle.std.specs.Prelude.{◌≡◌, ℕ, ◌<◌, ◌||◌, ◌⊎◌, IfSome, IfNone};
ghost use Rattle.std.specs.Bool.{OnTrue, OnFalse};
ghost use Rattle.mixed_graph.specs.Vocabulary.{has, graph_of};
ghost use Rattle.implications.specs.Separable.{IsSeparable, IsThinned, IsGivenSet, IsSeparatingSet};
ghost use Rattle.implications.specs.Links.{IsNextTo, AreAbove, IsCut};
ghost use Rattle.implications.specs.Steps.{IsStep};

use crate::links::{grown, is_next_to, reached_by_links};
use mixed_graph::{Graph, VSet};

/// Two vertices, and their ancestors.
#[derive(Clone, Copy)]
pub struct Pair {
    pub a: u8,
    pub b: u8,
    pub above: VSet,
}

/// A set that separates a pair, and what links reach from either vertex of it.
#[derive(Clone, Copy)]
pub struct Cut {
    pub kept: VSet,
    pub first: VSet,
    pub second: VSet,
}

/// Whether a vertex is next to both sides.
fn is_needed(g: &Graph, cut: Cut, v: u8) -> bool
    requires { v < 64 }
    ensures both { OnTrue result (IsNextTo (graph_of g.now) (has cut.first.bits) v × IsNextTo (graph_of g.now) (has cut.second.bits) v) }
    ensures one { OnFalse result ((IsNextTo (graph_of g.now) (has cut.first.bits) v → ⊥) ⊎ (IsNextTo (graph_of g.now) (has cut.second.bits) v → ⊥)) }
{
    if is_next_to(g, cut.first, v) {
        is_next_to(g, cut.second, v)
    } else {
        false
    }
}

/// The set without v, where v is a member and the rest still separates the pair; else the set.
fn without(g: &Graph, pair: Pair, cut: Cut, v: u8) -> Cut
    requires a { pair.a < g.now.n }
    requires b { pair.b < g.now.n }
    requires v { v < 64 }
    requires above { AreAbove (graph_of g.now) pair.a pair.b (has pair.above.bits) }
    requires cut { IsCut (graph_of g.now) pair cut }
    ensures step { IsStep (graph_of g.now) pair.a pair.b v (has cut.kept.bits) (has result.kept.bits) }
    ensures cut { IsCut (graph_of g.now) pair result }
{
    if !cut.kept.has(v) {
        return cut;
    }
    if is_needed(g, cut, v) {
        return cut;
    }
    Cut {
        kept: cut.kept.difference(VSet::one(v)),
        first: grown(g, pair.above, pair.a, cut.first, cut.kept, v),
        second: grown(g, pair.above, pair.b, cut.second, cut.kept, v),
    }
}

/// What stays of a separating set where each member, from the highest down, is dropped if the rest still separates.
fn thinned(g: &Graph, pair: Pair, all: Cut) -> VSet
    requires a { pair.a < g.now.n }
    requires b { pair.b < g.now.n }
    requires above { AreAbove (graph_of g.now) pair.a pair.b (has pair.above.bits) }
    requires cut { IsCut (graph_of g.now) pair all }
    ensures thinned { IsThinned (graph_of g.now) pair.a pair.b (has all.kept.bits) (has result.bits) }
    ensures separates { IsSeparatingSet (graph_of g.now) pair.a pair.b (has result.bits) }
{
    let mut cut = all;
    'down: for v in (0..64u8).rev() {
        cut = without(g, pair, cut, v);
    }
    cut.kept
}

/// The set that is given for two vertices, if some set separates them.
pub fn given_set(g: &Graph, a: u8, b: u8) -> Option<VSet>
    requires a { a < b }
    requires b { b < g.now.n }
    ensures given { IfSome result (λ w. IsGivenSet (graph_of g.now) a b (has w.bits)) }
    ensures none { IfNone result (IsSeparable (graph_of g.now) a b → ⊥) }
{
    let ends = VSet::one(a).union(VSet::one(b));
    let above = g.ancestors(ends);
    let others = above.difference(ends);
    let first = reached_by_links(g, others, VSet::one(a), above);
    if first.has(b) {
        return None;
    }
    let second = reached_by_links(g, others, VSet::one(b), above);
    let pair = Pair { a, b, above };
    let all = Cut {
        kept: others,
        first,
        second,
    };
    Some(thinned(g, pair, all))
}
