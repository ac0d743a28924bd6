//! Paths of bidirected edges.

ghost use Rattle.std.specs.Prelude.{ℕ, ◌≡◌, ◌<◌, ◌==◌, IsTrue, IfOk};
ghost use Rattle.mixed_graph.specs.Vocabulary.{has, Within, graph_of};
ghost use Rattle.hedge.specs.Vocabulary.{IsLinked};
ghost use Rattle.treated_id.specs.Answers.{IsJoinedPath};

use hedge::joined_sets::district_of;
use mixed_graph::{Graph, VSet};
use std::alloc::{AllocError, Global};

/// The vertices after `from` on a path of bidirected edges inside `within` that ends at `to`.
pub fn joined_path(
    alloc: Global,
    g: &Graph,
    within: VSet,
    from: u8,
    to: u8,
) -> Result<Vec<u8>, AllocError>
    requires within { Within g.now.n (has within.bits) }
    requires from_in { IsTrue (has within.bits from) }
    requires to_in { IsTrue (has within.bits to) }
    requires linked { IsLinked (graph_of g.now) (has within.bits) (λ v. v == to) from }
    ensures { IfOk result (λ path. IsJoinedPath (graph_of g.now) (has within.bits) from path.items to) }
{
    let mut path = Vec::new(alloc);
    let mut left = within;
    let mut at = from;
    'steps: while at != to {
        left = left.difference(VSet::one(at));
        at = g
            .spouses(at)
            .intersection(district_of(g, left, to))
            .lowest();
        path.push(at)?;
    }
    Ok(path)
}
