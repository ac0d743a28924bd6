//! For each vertex the child that is nearest to a goal.

ghost use Rattle.std.specs.Prelude.{◌≡◌, ℕ, ◌<◌, ◌&&◌, ◌↔◌, false, IsTrue, slice_index};
ghost use Rattle.mixed_graph.specs.Vocabulary.{has, Within, graph_of};
ghost use Rattle.hedge.specs.Spanning.{IsLowest};
ghost use Rattle.hedge.specs.Nearest.{IsChoiceOf};

use crate::joined_sets::lists::Choice;
use mixed_graph::{Graph, VSet};

/// Writes the lowest child in `goal` for each member of `fresh`.
fn choose_children(g: &Graph, next: &mut [u8; 64], fresh: VSet, goal: VSet)
    requires { (v : ℕ) → IsTrue (has fresh.bits v) → (c : ℕ) × IsTrue (has goal.bits c) × IsTrue ((graph_of g.now).arrow v c) }
    ensures chosen { (v : ℕ) → IsTrue (has fresh.bits v) → IsLowest (λ c. (graph_of g.now).arrow v c && has goal.bits c) (slice_index next.new v) }
    ensures others { (v : ℕ) → has fresh.bits v ≡ false → slice_index next.new v ≡ slice_index next.old v }
{
    for v in 0..64u8 {
        if fresh.has(v) {
            next[v as usize] = g.children(v).intersection(goal).lowest();
        }
    }
}

/// For each member of `within` outside `toward` with a directed path to it inside `within`, its child of least distance to
/// `toward`, the lowest among equals; for all others none.
pub fn child_choice(g: &Graph, within: VSet, toward: VSet) -> Choice
    requires { Within g.now.n (has within.bits) }
    ensures { (v : ℕ) → v < 64 → IsChoiceOf (graph_of g.now) (has within.bits) (has toward.bits) v (slice_index result.next v) }
{
    let mut next = [64u8; 64];
    let mut seen = toward;
    let mut front = toward;
    'levels: while front.bits != 0 {
        let goal = front.intersection(within);
        let fresh = g.parents_of(goal).intersection(within).difference(seen);
        choose_children(g, &mut next, fresh, goal);
        seen = seen.union(fresh);
        front = fresh;
    }
    Choice { next }
}
