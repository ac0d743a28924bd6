//! The graph that was read, with its observed graph.

ghost use Rattle.std.specs.Prelude.{◌≡◌, IfOk};
ghost use Rattle.diagram.specs.Observed.{IsObservedPart};

use dag_reader::ReadGraph;
use latent_projection::{observed, renumber};
use mixed_graph::VSet;
use std::alloc::{AllocError, Global};

/// A diagram: the graph that was read, and its observed graph with the names and the marks of its vertices.
#[derive(Drop)]
pub struct Diagram {
    pub read: ReadGraph,
    pub observed: ReadGraph,
    pub ghost part: { ∥ IsObservedPart read observed ∥₁ },
}

impl Diagram {
    /// The diagram of a graph that was read.
    pub fn of(alloc: Global, read: ReadGraph) -> Result<Diagram, AllocError>
        ensures { IfOk result (λ d. d.read ≡ read) }
    {
        let observed = observed_part(alloc, &read)?;
        Ok(Diagram { read, observed })
    }
}

/// The observed graph, with the names and the marks of the observed vertices.
fn observed_part(alloc: Global, graph: &ReadGraph) -> Result<ReadGraph, AllocError>
    ensures { IfOk result (IsObservedPart graph.now) }
{
    let seen = observed(alloc, &graph.names, &graph.graph, graph.latent)?;
    let _count = seen.names.count();
    let n = graph.graph.n;
    let exposures = renumber(graph.latent, n, graph.exposures);
    let outcomes = renumber(graph.latent, n, graph.outcomes);
    let adjusted = renumber(graph.latent, n, graph.adjusted);
    Ok(ReadGraph {
        names: seen.names,
        graph: seen.graph,
        exposures,
        outcomes,
        adjusted,
        latent: VSet::empty(),
    })
}
