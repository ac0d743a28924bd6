//! A graph as it was read.

ghost use Rattle.std.specs.Prelude.{◌≡◌, length};
ghost use Rattle.mixed_graph.specs.Vocabulary.{AreNames};
ghost use Rattle.dag_reader.specs.RoleSets.{AreRoleSets};

use mixed_graph::{Graph, Names, VSet};

/// A graph as it was read: its names, its edges, and the vertices that are marked.
#[derive(Drop)]
pub struct ReadGraph {
    pub names: Names,
    pub graph: Graph,
    pub exposures: VSet,
    pub outcomes: VSet,
    pub adjusted: VSet,
    pub latent: VSet,
    pub ghost named: { AreNames names },
    pub ghost sized: { length names ≡ graph.n },
    pub ghost marked: { AreRoleSets graph.n exposures.bits outcomes.bits adjusted.bits latent.bits },
}
