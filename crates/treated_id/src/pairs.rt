//! Treatments that are confounded with a child of their own.

ghost use Rattle.std.specs.Prelude.{ℕ, IsTrue};
ghost use Rattle.mixed_graph.specs.Vocabulary.{has, Within, graph_of};
ghost use Rattle.treated_id.specs.Answers.{IsPairOrNone};

use hedge::joined_sets::district_of;
use mixed_graph::{Graph, VSet};

/// A treatment and a child of it.
#[derive(Clone, Copy)]
pub struct Pair {
    pub treatment: u8,
    pub child: u8,
}

/// The first member of x that is joined, by bidirected edges inside s, to a child of its own, with the lowest such child.
pub fn confounded_pair(g: &Graph, x: VSet, s: VSet) -> Option<Pair>
    requires within { Within g.now.n (has s.bits) }
    requires inside { (v : ℕ) → IsTrue (has x.bits v) → IsTrue (has s.bits v) }
    ensures { IsPairOrNone (graph_of g.now) x.bits s.bits result }
{
    'treatments: for p in x.iter() {
        let joined = g.children(p).intersection(district_of(g, s, p));
        if !joined.is_empty() {
            return Some(Pair {
                treatment: p,
                child: joined.lowest(),
            });
        }
    }
    None
}
