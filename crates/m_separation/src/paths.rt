//! An open path, made of the search for it.

ghost use Rattle.std.specs.Prelude.{◌≡◌, ℕ, ◌+◌, ◌<◌, ◌==◌, false, IsTrue, Bool, IfSome, IfNone, slice_index};
ghost use Rattle.mixed_graph.specs.Vocabulary.{has, Within, graph_of};
ghost use Rattle.m_separation.specs.Walks.{IsOpenWalk, IsSeparated, IsJoined, IsPassed, heads_first, heads_second};
ghost use Rattle.m_separation.specs.Paths.{IsOpenPath, steps_from};
ghost use Rattle.m_separation.specs.States.{AreAncestors, mask_of, IsLed, AreLevels, level};

use crate::marks::Mark;
use crate::search::{next, separated};
use crate::states::{State, States};
use mixed_graph::{Graph, VSet};

/// A path of `count` vertices: mark i joins vertex i to vertex i + 1.
#[derive(Clone, Copy)]
pub struct OpenPath {
    pub vertices: [u8; 64],
    pub marks: [Mark; 64],
    pub count: u32,
}

/// The edge by which a walk came to a state, and the state that it left.
#[derive(Clone, Copy)]
struct Link {
    from: State,
    mark: Mark,
}

/// An edge to s from a state of the set.
fn link_to(g: &Graph, w: VSet, above: VSet, from: States, s: State) -> Link
    requires above { AreAncestors (graph_of g.now) (has w.bits) (has above.bits) }
    requires vertex { s.vertex < 64 }
    requires led { IsLed (graph_of g.now) (has w.bits) (mask_of from) s.vertex s.head }
    ensures in_range { result.from.vertex < 64 }
    ensures member { IsTrue (has (mask_of from result.from.head) result.from.vertex) }
    ensures joined { IsJoined (graph_of g.now) result.from.vertex result.mark s.vertex }
    ensures passed { IsPassed (graph_of g.now) (has w.bits) result.from.vertex result.from.head (heads_first result.mark) }
    ensures arrives { heads_second result.mark ≡ s.head }
{
    let turning = from.passing(w, above, true);
    if !s.head {
        return match turning.first_in(g.children(s.vertex)) {
            Some(t) => Link {
                from: t,
                mark: Mark::Into,
            },
            None => unreachable!(),
        };
    }
    if let Some(t) = from.passing(w, above, false).first_in(g.parents(s.vertex)) {
        return Link {
            from: t,
            mark: Mark::Out,
        };
    }
    match turning.first_in(g.spouses(s.vertex)) {
        Some(t) => Link {
            from: t,
            mark: Mark::Both,
        },
        None => unreachable!(),
    }
}

/// An open walk of `count` steps back from the state `last` of that level.
fn trace(
    g: &Graph,
    x: VSet,
    w: VSet,
    above: VSet,
    levels: &[States; 64],
    count: usize,
    last: State,
) -> OpenPath
    requires x { Within g.now.n (has x.bits) }
    requires above { AreAncestors (graph_of g.now) (has w.bits) (has above.bits) }
    requires levels { AreLevels (graph_of g.now) (has x.bits) (has w.bits) levels.now count }
    requires count { count < 64 }
    requires vertex { last.vertex < 64 }
    requires member { IsTrue (has (level levels.now count last.head) last.vertex) }
    requires outside { has w.bits last.vertex ≡ false }
    ensures count { result.count ≡ count + 1 }
    ensures open_walk { IsOpenWalk (graph_of g.now) (has x.bits) (λ v. v == last.vertex) (has w.bits) (slice_index result.vertices 0) (steps_from result.vertices result.marks 0 count) }
{
    let mut vertices = [0u8; 64];
    let mut marks = [Mark::Out; 64];
    let mut s = last;
    let mut left = count;
    vertices[left] = s.vertex;
    'back: while left > 0 {
        left -= 1;
        let link = link_to(g, w, above, levels[left], s);
        marks[left] = link.mark;
        vertices[left] = link.from.vertex;
        s = link.from;
    }
    OpenPath {
        vertices,
        marks,
        count: count as u32 + 1,
    }
}

/// An open path from x to y given w, if there is one.
pub fn open_path(g: &Graph, x: VSet, y: VSet, w: VSet) -> Option<OpenPath>
    requires x { Within g.now.n (has x.bits) }
    requires w { Within g.now.n (has w.bits) }
    ensures found { IfSome result (λ p. IsOpenPath (graph_of g.now) (has x.bits) (has y.bits) (has w.bits) p.vertices p.marks p.count) }
    ensures none { IfNone result (IsSeparated (graph_of g.now) (has x.bits) (has y.bits) (has w.bits)) }
{
    if separated(g, x, y, w) {
        return None;
    }
    let above = g.ancestors(w);
    let ends = y.difference(w);
    let mut front = States {
        tails: x.difference(w),
        heads: VSet::empty(),
    };
    let mut levels = [front; 64];
    let mut count = 0usize;
    'near: loop {
        if let Some(s) = front.first_in(ends) {
            return Some(trace(g, x, w, above, &levels, count, s));
        }
        front = next(g, w, above, front);
        count += 1;
        levels[count] = front;
    }
}
