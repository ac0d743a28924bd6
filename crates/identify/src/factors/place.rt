//! One vertex of a district: its factor, and the steps to it.

ghost use Rattle.std.specs.Prelude.{◌≡◌, ◌<◌, ◌≤◌, IfOk};
ghost use Rattle.mixed_graph.specs.Vocabulary.{has, Within, graph_of};
ghost use Rattle.do_derivation.specs.Vocabulary.{steps_view};
ghost use Rattle.identification_theory.specs.Vocabulary.{universe, source_steps, place_list};
ghost use Rattle.identify.specs.Parts.{source_of};
ghost use Rattle.identify.specs.Bodies.{IsPlaceOf};

use crate::factors::moves::{place_steps, source_steps};
use crate::factors::sets::pillow;
use crate::factors::terms::{Source, conditional};
use crate::wanted::Wanted;
use do_derivation::Step;
use mixed_graph::{Graph, VSet};
use prob_expr::Expr;
use std::alloc::{AllocError, Global};

/// The factor of a vertex, and the steps that make it of the vertex's term in the chain, where these are wanted.
#[derive(Drop)]
pub struct VertexFactor {
    pub term: Expr,
    pub steps: Vec<Step>,
}

/// The vertices that may have arrows into a: the others are under intervention.
fn universe(n: u32, from: Source, a: VSet) -> VSet
    requires { n ≤ 64 }
    ensures { result.bits ≡ universe n (source_of from) a.bits }
{
    match from {
        Source::Under(z) => VSet::below(n).difference(z),
        Source::Defined(_) => a,
    }
}

/// The steps from the term of v in the chain to its factor, where they are wanted.
fn vertex_steps(
    alloc: Global,
    wanted: Wanted,
    n: u32,
    from: Source,
    a: VSet,
    t: VSet,
    before: VSet,
    v: u8,
    m: VSet,
) -> Result<Vec<Step>, AllocError>
    requires few { n ≤ 64 }
    requires vertex { v < 64 }
    ensures { IfOk result (λ s. wanted ≡ Wanted.Derivation
        → steps_view s.items ≡ place_list before.bits (universe n (source_of from) a.bits) a.bits t.bits m.bits
        (source_steps (source_of from) a.bits v m.bits)) }
{
    match wanted {
        Wanted::Formula => Ok(Vec::new(alloc)),
        Wanted::Derivation => {
            let rest = source_steps(alloc, from, a, v, m)?;
            place_steps(alloc, before, universe(n, from, a), a, t, m, rest)
        }
    }
}

/// The factor of a member v of the district t of a, where `before` has the vertices before v.
pub fn place_of(
    alloc: Global,
    wanted: Wanted,
    g: &Graph,
    from: Source,
    a: VSet,
    t: VSet,
    before: VSet,
    v: u8,
) -> Result<VertexFactor, AllocError>
    requires vertex { v < g.now.n }
    requires within { Within g.now.n (has a.bits) }
    ensures { IfOk result (IsPlaceOf wanted (graph_of g.now) (source_of from) a.bits t.bits before.bits v) }
{
    let near = a.intersection(before).union(VSet::one(v));
    let m = pillow(g, near, v);
    let term = conditional(alloc, from, a, v, m)?;
    let steps = vertex_steps(alloc, wanted, g.n, from, a, t, before, v, m)?;
    Ok(VertexFactor { term, steps })
}
