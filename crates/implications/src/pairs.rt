//! The pairs that some set separates.

ghost use Rattle.std.specs.Prelude.{ℕ, ◌+◌, ◌<◌, IfOk, OnOk, All};
ghost use Rattle.mixed_graph.specs.Vocabulary.{has, graph_of};
ghost use Rattle.do_rules.specs.Vocabulary.{AreIndependent};
ghost use Rattle.std.specs.List.{Any};
ghost use Rattle.implications.specs.Separable.{only, AreIndependentGivenSome};
ghost use Rattle.implications.specs.Implications.{AreImplications, IsOf};
ghost use Rattle.implications.specs.Steps.{AreBefore};

use crate::sets::given_set;
use mixed_graph::{Graph, VSet};
use std::alloc::{AllocError, Global};

/// Two vertices, the lower one first, and a set that separates them.
#[derive(Clone, Copy, Debug, PartialEq, Eq)]
pub struct Implication {
    pub a: u8,
    pub b: u8,
    pub given: VSet,
}

/// Adds the pairs whose lower vertex is a.
fn add_pairs(g: &Graph, a: u8, list: &mut Vec<Implication>) -> Result<(), AllocError>
    requires a { a < g.now.n }
    requires before { AreBefore (graph_of g.now) a 0 list.old.items }
    ensures { OnOk result (AreBefore (graph_of g.now) (a + 1) 0 list.new.items) }
{
    'partners: for b in a + 1..g.n as u8 {
        if let Some(given) = given_set(g, a, b) {
            list.push(Implication { a, b, given })?;
        }
    }
    Ok(())
}

/// The pairs of vertices that some set separates, each once, sorted, and each with a set that separates it.
///
/// The set is made of the other ancestors of both: from the highest down each is dropped where the rest still separates.
/// In each model that fits the graph, positive or not, the two are independent given it. Of any other pair and any set some positive model has
/// the two dependent.
pub fn implications(alloc: Global, g: &Graph) -> Result<Vec<Implication>, AllocError>
    ensures implications { IfOk result (λ list. AreImplications (graph_of g.now) list.items) }
    ensures complete { IfOk result (λ list. (a b : ℕ) → AreIndependentGivenSome (graph_of g.now) a b → Any (IsOf a b) list.items) }
    ensures independent { IfOk result (λ list. All (λ i. AreIndependent (graph_of g.now) (only i.a) (only i.b) (has i.given.bits)) list.items) }
{
    let mut list = Vec::new(alloc);
    'lower: for a in 0..g.n as u8 {
        add_pairs(g, a, &mut list)?;
    }
    Ok(list)
}
