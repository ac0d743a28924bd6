//! The fault of a graph with a bidirected edge.

ghost use Rattle.std.specs.Prelude.{◌≡◌, ◌<◌, IfOk, IfSome, IfNone, length};
ghost use Rattle.mixed_graph.specs.Vocabulary.{is_named, name_of, graph_of};
ghost use Rattle.markov_equivalence.specs.Vocabulary.{HasArrowsAlone};
ghost use Rattle.equivalent_command.specs.Numbers.{AreAmong, HaveSameNames};
ghost use Rattle.equivalent_command.specs.Faults.{IsFirstBidirected, IsBidirectedFault, IsFirstAlone, IsNamesFault};

use dag_reader::ReadGraph;
use mixed_graph::{Graph, Names, Text};
use std::alloc::{AllocError, Global};
use targets::TargetFault;

/// The ends of a bidirected edge.
#[derive(Clone, Copy)]
pub struct Pair {
    pub a: u8,
    pub b: u8,
}

/// The first bidirected edge, if there is one.
fn first_bidirected(g: &Graph) -> Option<Pair>
    ensures found { IfSome result (λ p. IsFirstBidirected (graph_of g.now) p.a p.b) }
    ensures within { IfSome result (λ p. (p.a < g.now.n) × (p.b < g.now.n)) }
    ensures none { IfNone result (HasArrowsAlone (graph_of g.now)) }
{
    for a in 0..g.n as u8 {
        let spouses = g.spouses(a);
        if !spouses.is_empty() {
            return Some(Pair {
                a,
                b: spouses.lowest(),
            });
        }
    }
    None
}

/// The fault of a graph with a bidirected edge: the names of the first one.
pub fn bidirected_fault(alloc: Global, seen: &ReadGraph) -> Result<Option<TargetFault>, AllocError>
    ensures found { IfOk result (λ o. IfSome o (IsBidirectedFault (graph_of seen.now.graph) seen.now.names)) }
    ensures none { IfOk result (λ o. IfNone o (HasArrowsAlone (graph_of seen.now.graph))) }
{
    let Some(pair) = first_bidirected(&seen.graph) else {
        return Ok(None);
    };
    let a = Text::of(alloc, seen.names.get(pair.a))?;
    let b = Text::of(alloc, seen.names.get(pair.b))?;
    Ok(Some(TargetFault::Bidirected(a, b)))
}

/// Whether the name of v is one of the others.
fn is_shared(names: &Names, others: &Names, v: u8) -> bool
    requires { v < length names.now }
    ensures { result ≡ is_named others.now (name_of names.now v) }
{
    others.index(names.get(v)).is_some()
}

/// The lowest vertex whose name isn't one of the others, if there is one.
fn first_alone(names: &Names, others: &Names) -> Option<u8>
    ensures found { IfSome result (IsFirstAlone names.now others.now) }
    ensures none { IfNone result (AreAmong names.now others.now) }
{
    for v in 0..names.count() as u8 {
        if !is_shared(names, others, v) {
            return Some(v);
        }
    }
    None
}

/// The fault of two graphs where one has a name alone: the first such name.
pub fn names_fault(
    alloc: Global,
    names: &Names,
    others: &Names,
) -> Result<Option<TargetFault>, AllocError>
    ensures found { IfOk result (λ o. IfSome o (IsNamesFault names.now others.now)) }
    ensures none { IfOk result (λ o. IfNone o (HaveSameNames names.now others.now)) }
{
    if let Some(v) = first_alone(names, others) {
        let name = Text::of(alloc, names.get(v))?;
        return Ok(Some(TargetFault::OtherNames(name)));
    }
    if let Some(v) = first_alone(others, names) {
        let name = Text::of(alloc, others.get(v))?;
        return Ok(Some(TargetFault::OtherNames(name)));
    }
    Ok(None)
}
