//! A diagram read to be kept.

ghost use Rattle.std.specs.Prelude.{◌≡◌, ◌↔◌, IsTrue, IfErr, IfOk};
ghost use Rattle.mixed_graph.specs.Vocabulary.{graph_of};
ghost use Rattle.diagram.specs.Vocabulary.{IsObservedGraph};
ghost use Rattle.caller_memory.specs.Kept.{graph_in, KeepsText, IsNoGraphText, Keeps, lines_of};

use crate::kept::kept::{KeptDiagram, KeptGraph};
use crate::kept::naming::lines;
use dag_reader::{GraphFault, ReadGraph, read_graph};
use latent_projection::observed;
use mixed_graph::Graph;
use std::alloc::{AllocError, Global};

/// The most bytes that a graph text may have.
const MAX_BYTES: usize = 1_048_576;

/// Why there is no diagram to keep.
#[derive(Clone, Copy, Debug)]
pub enum KeepFault {
    /// The bytes are no graph text.
    Refused,
    /// Memory was refused.
    NoMemory,
}

/// A diagram that was read, and its names.
#[derive(Drop)]
pub struct ReadDiagram {
    pub diagram: KeptDiagram,
    /// The name of each vertex in turn, with a line feed behind it.
    pub lines: Vec<u8>,
}

impl KeptDiagram {
    /// The diagram of a graph text of at most 1,048,576 bytes.
    ///
    /// `Refused` where the bytes are no such text: `run` tells where and why.
    pub fn read(alloc: Global, text: &[u8]) -> Result<ReadDiagram, KeepFault>
        ensures kept { IfOk result (λ d. KeepsText text.now d.diagram d.lines.items) }
        ensures refused { IfErr result (λ f. f ≡ KeepFault.Refused → IsNoGraphText text.now) }
    {
        if text.len() > MAX_BYTES {
            return Err(KeepFault::Refused);
        }
        match read_graph(alloc, text) {
            Ok(graph) => match keep(alloc, graph) {
                Ok(diagram) => Ok(diagram),
                Err(_) => Err(KeepFault::NoMemory),
            },
            Err(fault) => {
                if is_memory(&fault) {
                    return Err(KeepFault::NoMemory);
                }
                Err(KeepFault::Refused)
            }
        }
    }
}

/// Keeps a graph that was read.
fn keep(alloc: Global, read: ReadGraph) -> Result<ReadDiagram, AllocError>
    ensures keeps { IfOk result (λ d. Keeps d.diagram d.lines.items read) }
    ensures observed { IfOk result (λ d. IsObservedGraph read (graph_in d.diagram.observed)) }
{
    let seen = observed(alloc, &read.names, &read.graph, read.latent)?;
    let lines = lines(alloc, &read.names)?;
    Ok(ReadDiagram {
        diagram: KeptDiagram {
            observed: KeptGraph::of(seen.graph),
            read: KeptGraph::of(read.graph),
            exposures: read.exposures.bits,
            outcomes: read.outcomes.bits,
            adjusted: read.adjusted.bits,
            latent: read.latent.bits,
        },
        lines,
    })
}

impl KeptGraph {
    /// The graph in memory of the caller.
    fn of(graph: Graph) -> KeptGraph
        ensures same { graph_in result ≡ graph_of graph }
        ensures vertices { result.vertices ≡ graph.n }
    {
        let (parents, children, spouses) = (graph.parents, graph.children, graph.spouses);
        KeptGraph {
            vertices: graph.n,
            parents,
            children,
            spouses,
        }
    }
}

/// Whether memory was refused.
fn is_memory(fault: &GraphFault) -> bool
    ensures { IsTrue result ↔ (fault.now ≡ GraphFault.NoMemory) }
{
    matches!(fault, GraphFault::NoMemory)
}
