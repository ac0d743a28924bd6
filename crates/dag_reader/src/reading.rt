//! A graph read from a text.

ghost use Rattle.std.specs.Prelude.{◌≡◌, true};
ghost use Rattle.std.specs.Str.{is_utf8};
ghost use Rattle.dag_reader.specs.SaidView.{said_by};
ghost use Rattle.dag_reader.specs.Reads.{GivesGraph, Reads};
ghost use Rattle.dag_reader.specs.Builds.{IsNamed, HoldsMarked, Owns};

use crate::building::{MarkedGraph, marked_graph};
use crate::faults::{Fault, GraphFault, ReadFault};
use crate::graph::ReadGraph;
use crate::said::Statements;
use crate::statements::read_statements;
use mixed_graph::{Names, Text};
use std::alloc::Global;

/// The graph of these names.
fn named_graph(names: Names, marked: MarkedGraph) -> ReadGraph
    requires { IsNamed names marked }
    ensures { HoldsMarked result names marked }
{
    let MarkedGraph { graph, roles } = marked;
    ReadGraph {
        names,
        graph,
        exposures: roles.exposures,
        outcomes: roles.outcomes,
        adjusted: roles.adjusted,
        latent: roles.latent,
    }
}

/// The graph that statements give.
fn graph_from(alloc: Global, said: Statements) -> Result<ReadGraph, GraphFault>
    ensures { GivesGraph (said_by said) result }
{
    let Statements { names, marks, .. } = said;
    match marked_graph(alloc, &names, marks.as_slice()) {
        Ok(marked) => Ok(named_graph(names, marked)),
        Err(fault) => Err(fault),
    }
}

/// The fault with a copy of its name.
fn owned(alloc: Global, error: ReadFault<'_>) -> GraphFault
    ensures { Owns error.entry result }
{
    match error {
        ReadFault::Memory => GraphFault::NoMemory,
        ReadFault::Fault(Fault::Token(at)) => GraphFault::Token(at),
        ReadFault::Fault(Fault::Expected(at)) => GraphFault::Expected(at),
        ReadFault::Fault(Fault::NotADag) => GraphFault::NotADag,
        ReadFault::Fault(Fault::EdgeKind(at)) => GraphFault::EdgeKind(at),
        ReadFault::Fault(Fault::Flag(at)) => GraphFault::Flag(at),
        ReadFault::Fault(Fault::Selected(name)) => match Text::of(alloc, name) {
            Ok(name) => GraphFault::Selected(name),
            Err(_) => GraphFault::NoMemory,
        },
        ReadFault::Fault(Fault::TooMany) => GraphFault::TooMany,
    }
}

/// Reads a text of characters.
fn read_text(alloc: Global, text: &[u8]) -> Result<ReadGraph, GraphFault>
    requires { is_utf8 text.now ≡ true }
    ensures { Reads text.now result }
{
    match read_statements(alloc, text) {
        Ok(said) => graph_from(alloc, said),
        Err(error) => Err(owned(alloc, error)),
    }
}

/// Reads a graph text.
///
/// The faults come in this order: bytes that aren't UTF-8; the first fault of the text from left to right, where a token's own fault
/// comes before that of a name that it ends, and that before the grammar's; a self-loop; a clash of roles; a cycle.
pub fn read_graph(alloc: Global, text: &[u8]) -> Result<ReadGraph, GraphFault>
    ensures { Reads text.now result }
{
    match str::from_utf8(text) {
        Ok(_) => read_text(alloc, text),
        Err(error) => Err(GraphFault::NotUtf8(error.valid_up_to())),
    }
}
