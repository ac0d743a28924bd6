//! The diagram that is kept, as questions with names have it: nothing is projected.

ghost use Rattle.std.specs.Prelude.{◌≡◌, IfOk, IsErrOf, length};
ghost use Rattle.mixed_graph.specs.Vocabulary.{has, graph_of};
ghost use Rattle.dag_reader.specs.declared.graph.ReadGraph.{ReadGraph as Read};
ghost use Rattle.latent_projection.specs.Vocabulary.{observed_below, names_at};
ghost use Rattle.diagram.specs.Vocabulary.{IsObservedGraph, IsObservedPart, observed_names};
ghost use Rattle.caller_memory.specs.Kept.{Keeps, graph_in};

use crate::kept::kept::KeptDiagram;
use crate::kept::naming::{NamesFault, add_new, names_on};
use dag_reader::ReadGraph;
use diagram::Diagram;
use latent_projection::{Observed, renumber};
use mixed_graph::{Names, VSet};
use std::alloc::Global;

impl KeptDiagram {
    /// The diagram that is kept, with its names, which stand on these lines, in order.
    ///
    /// `NotNames` where no graph with names on these lines is kept.
    pub fn diagram(&self, alloc: Global, lines: &[u8]) -> Result<Diagram, NamesFault>
        ensures keeps { IfOk result (λ d. Keeps self.now lines.now d.read) }
        ensures refused { IsErrOf result NamesFault.NotNames → (g : Read) → Keeps self.now lines.now g → ⊥ }
    {
        let read = match self.graph(alloc, lines) {
            Ok(read) => read,
            Err(fault) => return Err(fault),
        };
        match self.observed_part(alloc, &read) {
            Ok(observed) => Ok(Diagram { read, observed }),
            Err(fault) => Err(fault),
        }
    }

    /// The graph that was read, with its names.
    fn graph(&self, alloc: Global, lines: &[u8]) -> Result<ReadGraph, NamesFault>
        ensures keeps { IfOk result (Keeps self.now lines.now) }
        ensures refused { IsErrOf result NamesFault.NotNames → (g : Read) → Keeps self.now lines.now g → ⊥ }
    {
        match names_on(alloc, lines, self.read.vertices) {
            Ok(names) => Ok(ReadGraph {
                names,
                graph: self.read.graph(),
                exposures: VSet::of_bits(self.exposures),
                outcomes: VSet::of_bits(self.outcomes),
                adjusted: VSet::of_bits(self.adjusted),
                latent: VSet::of_bits(self.latent),
            }),
            Err(fault) => Err(fault),
        }
    }

    /// The observed graph, with the names and the marks of the observed vertices of the graph that was read.
    fn observed_part(&self, alloc: Global, read: &ReadGraph) -> Result<ReadGraph, NamesFault>
        requires graph { graph_in self.now.read ≡ graph_of read.now.graph }
        requires latent { self.now.latent ≡ read.now.latent.bits }
        ensures part { IfOk result (λ p. ∥ IsObservedPart read.now p ∥₁) }
        ensures names { IsErrOf result NamesFault.NotNames → ⊥ }
    {
        let seen = self.observed(alloc, read)?;
        let _count = seen.names.count();
        let n = read.graph.n;
        let exposures = renumber(read.latent, n, read.exposures);
        let outcomes = renumber(read.latent, n, read.outcomes);
        let adjusted = renumber(read.latent, n, read.adjusted);
        Ok(ReadGraph {
            names: seen.names,
            graph: seen.graph,
            exposures,
            outcomes,
            adjusted,
            latent: VSet::empty(),
        })
    }

    /// The observed graph, with the names of the observed vertices.
    fn observed(&self, alloc: Global, read: &ReadGraph) -> Result<Observed, NamesFault>
        requires graph { graph_in self.now.read ≡ graph_of read.now.graph }
        requires latent { self.now.latent ≡ read.now.latent.bits }
        ensures names { IfOk result (λ o. o.names ≡ observed_names read.now) }
        ensures graph { IfOk result (λ o. ∥ IsObservedGraph read.now (graph_of o.graph) ∥₁) }
        ensures named { IfOk result (λ o. length o.names ≡ o.graph.n) }
        ensures all { IsErrOf result NamesFault.NotNames → ⊥ }
    {
        let names = names_apart_from(alloc, &read.names, read.latent)?;
        Ok(Observed {
            names,
            graph: self.observed.graph(),
        })
    }
}

/// The names of the vertices outside a set, in order. Memory alone may be refused.
fn names_apart_from(alloc: Global, names: &Names, latent: VSet) -> Result<Names, NamesFault>
    ensures names { IfOk result (λ kept. kept ≡ names_at (observed_below (has latent.bits) (length names.now)) names.now) }
    ensures all { IsErrOf result NamesFault.NotNames → ⊥ }
{
    let n = names.count();
    if latent.is_empty() {
        return copied(names);
    }
    let mut kept = Names::empty(alloc);
    for v in 0..n as u8 {
        if !latent.has(v) {
            add_new(&mut kept, names.get(v))?;
        }
    }
    Ok(kept)
}

/// The same names again.
fn copied(names: &Names) -> Result<Names, NamesFault>
    ensures same { IfOk result (λ copy. copy ≡ names.now) }
    ensures all { IsErrOf result NamesFault.NotNames → ⊥ }
{
    match names.copy() {
        Ok(copy) => Ok(copy),
        Err(_) => Err(NamesFault::NoMemory),
    }
}
