//! A diagram in memory of the caller.

ghost use Rattle.std.specs.Prelude.{◌≡◌, ◌≤◌};
ghost use Rattle.mixed_graph.specs.Vocabulary.{has, Agree, IsMixedGraph, graph_from};
ghost use Rattle.dag_reader.specs.Vocabulary.{AreRoleSets};
ghost use Rattle.latent_projection.specs.Vocabulary.{IsObserved};

use mixed_graph::Rows;

/// An acyclic mixed graph on the vertices below `vertices`, at most 64, in memory of the caller.
///
/// Row v of `parents`, `children` and `spouses` holds the vertices u with u -> v, v -> u and v <-> u. All zeros are the graph
/// without a vertex.
#[repr(C)]
#[derive(Drop)]
pub struct KeptGraph {
    pub vertices: u32,
    pub parents: Rows,
    pub children: Rows,
    pub spouses: Rows,
    pub ghost small: { vertices ≤ 64 },
    pub ghost agree: { Agree parents children },
    pub ghost valid: { IsMixedGraph (graph_from vertices children spouses) },
}

/// A diagram that was read, in memory of the caller, without its names.
///
/// Bit v of a set is set where vertex v of the graph as it was read is marked so. All zeros are the diagram without a vertex.
#[repr(C)]
#[derive(Drop)]
pub struct KeptDiagram {
    /// The observed graph, whose vertices have numbers of their own.
    pub observed: KeptGraph,
    /// The graph as it was read.
    pub read: KeptGraph,
    pub exposures: u64,
    pub outcomes: u64,
    pub adjusted: u64,
    pub latent: u64,
    pub ghost marked: { AreRoleSets read.vertices exposures outcomes adjusted latent },
    pub ghost projected: { ∥ IsObserved (graph_from read.vertices read.children read.spouses) (has latent)
        (graph_from observed.vertices observed.children observed.spouses) ∥₁ },
}
