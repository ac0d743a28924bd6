//! How many names there are.

ghost use Rattle.std.specs.Prelude.{◌≡◌, ◌≤◌, ◌<◌, true, false};
ghost use Rattle.mixed_graph.specs.Vocabulary.{has, Within};
ghost use Rattle.treated_models.specs.Vocabulary.{name_count};

use mixed_graph::{Graph, VSet};

/// Whether there are more than 64 names with a primed name for each member of x.
pub fn are_too_many(g: &Graph, x: VSet) -> bool
    requires { Within g.now.n (has x.bits) }
    ensures many { result ≡ true → 64 < name_count g.now.n x.bits }
    ensures few { result ≡ false → name_count g.now.n x.bits ≤ 64 }
{
    g.n + x.count() > 64
}
