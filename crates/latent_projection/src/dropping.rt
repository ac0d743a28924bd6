//! The observed graph: the projection without its latent vertices.

ghost use Rattle.std.specs.Prelude.{◌≡◌, ℕ, ◌<◌, false, List, ◌∷◌, [], ◌++◌, length, IfOk, OnOk};
ghost use Rattle.mixed_graph.specs.Vocabulary.{has, IsName, is_named, graph_of};
ghost use Rattle.latent_projection.specs.Renumbering.{observed_below, names_at, IsObserved};

use crate::latents::project;
use crate::numbers::drop_latent;
use crate::parts::Observed;
use mixed_graph::{AddFault, Graph, Names, VSet};
use std::alloc::{AllocError, Global};

/// The latent projection without its latent vertices, the others numbered anew in their old order, with their names.
pub fn observed(
    alloc: Global,
    names: &Names,
    graph: &Graph,
    latent: VSet,
) -> Result<Observed, AllocError>
    requires { length names.now ≡ graph.now.n }
    ensures names { IfOk result (λ o. o.names ≡ names_at (observed_below (has latent.bits) graph.now.n) names.now) }
    ensures graph { IfOk result (λ o. IsObserved (graph_of graph.now) (has latent.bits) (graph_of o.graph)) }
    ensures named { IfOk result (λ o. length o.names ≡ o.graph.n) }
{
    let kept = observed_names(alloc, names, latent)?;
    Ok(Observed {
        names: kept,
        graph: observed_graph(graph, latent),
    })
}

/// The observed graph; without latent vertices it is the graph itself.
fn observed_graph(graph: &Graph, latent: VSet) -> Graph
    ensures { IsObserved (graph_of graph.now) (has latent.bits) (graph_of result) }
{
    if latent.is_empty() {
        return Graph {
            n: graph.n,
            parents: graph.parents,
            children: graph.children,
            spouses: graph.spouses,
        };
    }
    let projection = project(graph, latent);
    drop_latent(&projection, latent)
}

/// The names of the observed vertices; without latent vertices all names.
fn observed_names(alloc: Global, names: &Names, latent: VSet) -> Result<Names, AllocError>
    ensures { IfOk result (λ kept. kept ≡ names_at (observed_below (has latent.bits) (length names.now)) names.now) }
{
    let n = names.count();
    if latent.is_empty() {
        return names.copy();
    }
    let mut kept = Names::empty(alloc);
    for v in 0..n as u8 {
        if !latent.has(v) {
            put(&mut kept, names.get(v))?;
        }
    }
    Ok(kept)
}

/// Adds a new name.
fn put(names: &mut Names, name: &[u8]) -> Result<(), AllocError>
    requires new { is_named names.old name.now ≡ false }
    requires room { length names.old < 64 }
    requires formed { IsName name.now }
    ensures { OnOk result (names.new ≡ names.old ++ name.now ∷ []) }
{
    match names.add(name) {
        Ok(_) => Ok(()),
        Err(AddFault::NoMemory) => Err(AllocError),
        Err(AddFault::NotAName | AddFault::Full) => unreachable!(),
    }
}
