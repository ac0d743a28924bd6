//! Hiding what isn't needed: the latent projection on fewer vertices, on which the target is still identified.

ghost use Rattle.std.specs.Prelude.{ℕ, ◌≡◌, ◌<◌, IfOk, IfSome};
ghost use Rattle.mixed_graph.specs.Vocabulary.{has};
ghost use Rattle.do_rules.specs.Vocabulary.{AreThreeSets};

use conditional_id::{Conditional, identify_given};
use do_derivation::Derivation;
use latent_projection::project;
use mixed_graph::{Graph, VSet};
use prob_expr::Target;
use std::alloc::{AllocError, Global};

/// The order in which vertices are tried.
#[derive(Clone, Copy)]
pub enum Sweep {
    /// From the last to the first.
    Down,
    /// From the first to the last.
    Up,
}

impl Sweep {
    /// Vertex number i of n in the order.
    fn vertex(self, i: u8, n: u8) -> u8
        requires { i < n }
        ensures { result < n }
    {
        match self {
            Sweep::Down => n - 1 - i,
            Sweep::Up => i,
        }
    }
}

/// A graph whose hidden vertices have no edges.
#[derive(Drop)]
pub struct Hidden {
    pub graph: Graph,
    pub hidden: VSet,
}

/// The derivation of the procedure for a target, where it has one.
pub(crate) fn derivation_in(
    alloc: Global,
    g: &Graph,
    t: &Target,
) -> Result<Option<Derivation>, AllocError>
    requires sets { AreThreeSets g.now.n (has t.now.x.bits) (has t.now.y.bits) (has t.now.given.bits) }
    requires some { 0 < t.now.y.bits }
{
    match identify_given(alloc, g, t)? {
        Conditional::Formula(_, derivation) => Ok(Some(derivation)),
        Conditional::Joint { .. } => Ok(None),
    }
}

/// The graph without a vertex, where the target is identified in it.
fn without(alloc: Global, g: &Graph, t: &Target, v: u8) -> Result<Option<Graph>, AllocError>
    requires vertex { v < 64 }
    requires sets { AreThreeSets g.now.n (has t.now.x.bits) (has t.now.y.bits) (has t.now.given.bits) }
    requires some { 0 < t.now.y.bits }
    ensures { IfOk result (λ found. IfSome found (λ h. h.n ≡ g.now.n)) }
{
    let small = project(g, VSet::one(v));
    match derivation_in(alloc, &small, t)? {
        Some(_) => Ok(Some(small)),
        None => Ok(None),
    }
}

/// Hides each vertex outside of the target, in the order, without which the target is still identified.
pub fn hide(alloc: Global, g: &Graph, t: &Target, sweep: Sweep) -> Result<Hidden, AllocError>
    requires sets { AreThreeSets g.now.n (has t.now.x.bits) (has t.now.y.bits) (has t.now.given.bits) }
    requires some { 0 < t.now.y.bits }
    ensures { IfOk result (λ h. h.graph.n ≡ g.now.n) }
{
    let stays = t.x.union(t.y).union(t.given);
    let n = g.n as u8;
    let mut graph = project(g, VSet::EMPTY);
    let mut hidden = VSet::EMPTY;
    for i in 0..n {
        let v = sweep.vertex(i, n);
        if !stays.has(v) {
            if let Some(small) = without(alloc, &graph, t, v)? {
                graph = small;
                hidden = hidden.union(VSet::one(v));
            }
        }
    }
    Ok(Hidden { graph, hidden })
}
