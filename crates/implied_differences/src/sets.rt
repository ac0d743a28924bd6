//! The vertices of an implication.

ghost use Rattle.std.specs.Prelude.{◌≡◌, ◌<◌};
ghost use Rattle.mixed_graph.specs.Vocabulary.{has};
ghost use Rattle.implied_differences.specs.Differences.{whole_of};

use implications::Implication;
use mixed_graph::VSet;

/// The vertices of an implication: the pair and what is given.
pub fn vertices_of(i: &Implication) -> VSet
    requires a { i.now.a < 64 }
    requires b { i.now.b < 64 }
    ensures { has result.bits ≡ whole_of i.now }
{
    let second = VSet::one(i.b).union(i.given);
    VSet::one(i.a).union(second)
}
