//! The vertices that carry the event's parity to y.

ghost use Rattle.std.specs.Prelude.{◌≡◌, ℕ, ◌<◌, ◌&&◌, ◌==◌, cond, nat_lt, IsTrue, slice_index};
ghost use Rattle.mixed_graph.specs.Vocabulary.{has, Within, graph_of};
ghost use Rattle.hedge.specs.Vocabulary.{IsSetOf, Reaches};
ghost use Rattle.counter_models.specs.Kept.{AreCarriers, IsChosenFrom};

use hedge::{Choice, child_choice};
use mixed_graph::{Graph, VSet};

/// The kept vertices, and the child to which each of them outside y carries.
#[derive(Clone, Copy)]
pub struct Carrying {
    pub kept: VSet,
    pub carry: Choice,
}

/// The vertex, or none for 64.
fn vertex_or_none(v: u8) -> VSet
    ensures { (u : ℕ) → has result.bits u ≡ ((u == v) && nat_lt v 64) }
{
    if v < 64 { VSet::one(v) } else { VSet::empty() }
}

/// The vertices to which the choices lead from the members of `roots`, and these.
fn followed(choice: &Choice, roots: VSet) -> VSet
    ensures { IsSetOf result.bits (IsChosenFrom choice.now.next roots.bits) }
{
    let mut found = roots;
    let mut front = roots;
    while front.bits != 0 {
        let v = front.lowest();
        let fresh = vertex_or_none(choice.next[v as usize]).difference(found);
        found = found.union(fresh);
        front = front.difference(VSet::one(v)).union(fresh);
    }
    found
}

/// The choices of the members of the set alone.
fn choices_of(choice: &Choice, set: VSet) -> Choice
    ensures { (v : ℕ) → v < 64 → slice_index result.next v ≡ cond (has set.bits v) (slice_index choice.now.next v) 64 }
{
    let mut next = [64u8; 64];
    for v in 0..64u8 {
        if set.has(v) {
            next[v as usize] = choice.next[v as usize];
        }
    }
    Choice { next }
}

/// The vertices that carry the roots' bits to y outside x.
pub fn carry_toward(g: &Graph, x: VSet, y: VSet, roots: VSet) -> Carrying
    requires roots { (v : ℕ) → IsTrue (has roots.bits v) → Reaches (graph_of g.now) x.bits y.bits v }
    ensures { AreCarriers (graph_of g.now) x.bits y.bits roots.bits result.kept.bits result.carry.next }
{
    let free = VSet::below(g.n).difference(x);
    let choice = child_choice(g, free, y);
    let kept = followed(&choice, roots);
    Carrying {
        kept,
        carry: choices_of(&choice, kept),
    }
}
