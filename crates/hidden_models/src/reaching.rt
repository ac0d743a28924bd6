//! The causes that reach an observed vertex, and those that they reach.

ghost use Rattle.std.specs.Prelude.{◌≡◌, ℕ, ◌<◌, ◌≤◌, ◌^◌, ◌↔◌, not, IsTrue, IfOk, length};
ghost use Rattle.mixed_graph.specs.Vocabulary.{has, members_below, Within, graph_of};
ghost use Rattle.finite_models.specs.Vocabulary.{children_of};
ghost use Rattle.hidden_models.specs.Reaching.{IsReachedFrom, AreReached, has_some};

use finite_models::Cause;
use mixed_graph::{Graph, VSet};
use std::alloc::{AllocError, Global};

/// The observed vertices that some member of s reaches.
fn reach(g: &Graph, latent: VSet, s: VSet) -> VSet
    requires { Within g.now.n (has s.bits) }
    ensures fits { result.bits < 2 ^ 64 }
    ensures tells { (v : ℕ) → IsTrue (has result.bits v) ↔ IsReachedFrom (graph_of g.now) (has latent.bits) (has s.bits) v }
{
    let past_latent = g.restrict(latent, VSet::below(g.n), VSet::empty());
    past_latent.descendants(s).difference(latent)
}

/// For each cause the observed vertices that it reaches.
pub fn reached_sets(
    alloc: Global,
    g: &Graph,
    latent: VSet,
    causes: &[Cause],
) -> Result<Vec<VSet>, AllocError>
    requires { (j : ℕ) → j < length causes.now → Within g.now.n (has (children_of causes.now j)) }
    ensures { IfOk result (λ sets. AreReached (graph_of g.now) (has latent.bits) causes.now sets.items) }
{
    let mut sets = Vec::new(alloc);
    for j in 0..causes.len() {
        let set = reach(g, latent, causes[j].children);
        sets.push(set)?;
    }
    Ok(sets)
}

/// The numbers of the causes that reach an observed vertex.
pub fn reaching_causes(alloc: Global, sets: &[VSet]) -> Result<Vec<usize>, AllocError>
    ensures { IfOk result (λ kept. kept.items ≡ members_below (has_some sets.now) (length sets.now)) }
{
    let mut kept = Vec::new(alloc);
    for j in 0..sets.len() {
        if !sets[j].is_empty() {
            kept.push(j)?;
        }
    }
    Ok(kept)
}

/// The observed vertices below n.
pub fn observed_vertices(alloc: Global, latent: VSet, n: u32) -> Result<Vec<u8>, AllocError>
    requires { n ≤ 64 }
    ensures { IfOk result (λ kept. kept.items ≡ members_below (λ v. not (has latent.bits v)) n) }
{
    let mut kept = Vec::new(alloc);
    for v in 0..n as u8 {
        if !latent.has(v) {
            kept.push(v)?;
        }
    }
    Ok(kept)
}
