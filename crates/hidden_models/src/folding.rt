//! A model folded to one of the observed graph.

ghost use Rattle.std.specs.Prelude.{◌≡◌, ℕ, ◌<◌, ◌≤◌, not, IfOk, IfErr, IfSome, IfNone, All, OnOk, length, slice_index};
ghost use Rattle.mixed_graph.specs.Vocabulary.{has, members_below, MixedGraph, graph_of};
ghost use Rattle.latent_projection.specs.Vocabulary.{observed_below, IsObserved};
ghost use Rattle.finite_models.specs.Vocabulary.{meaning, IsFirstWrong, AllRight, IsAcceptedModel};
ghost use Rattle.hidden_models.specs.Folding.{Folds};
ghost use Rattle.hidden_models.specs.Folded.{IsCauseOf, AreFoldedCauses, IsTable, IsSmallEnough, IsFoldFault, IsFoldedData};
ghost use Rattle.hidden_models.specs.Lists.{AreListed};
ghost use Rattle.hidden_models.specs.Parts.{AreParts};
ghost use Rattle.hidden_models.specs.Reaching.{has_some, mask_at};
ghost use Rattle.hidden_models.specs.Tables.{entries, IsTableFor};

use crate::entries::table;
use crate::faults::FoldFault;
use crate::parts::Parts;
use crate::ranges::count_entries;
use crate::reaching::{observed_vertices, reached_sets, reaching_causes};
use finite_models::{Cause, Mechanism, Model};
use latent_projection::{project, renumber};
use mixed_graph::{Graph, VSet};
use std::alloc::{AllocError, Global};

/// The model of the observed graph that folds a model of a graph with latent vertices: the latent mechanisms are put into
/// the observed ones, which become tables, and each cause that reaches an observed vertex serves those that it reaches.
///
/// The model is one that `check_model` accepts.
///
/// `TooLarge` where the table of an observed vertex would have more than 2^20 entries, the lowest such; `NoMemory` where memory was refused.
pub fn fold_model(alloc: Global, g: &Graph, latent: VSet, m: &Model) -> Result<Model, FoldFault>
    requires { IsAcceptedModel (graph_of g.now) m.now }
    ensures fits { IfOk result (λ f. (q : MixedGraph) → IsObserved (graph_of g.now) (has latent.bits) q → IsAcceptedModel q f) }
    ensures folds { IfOk result (λ f. (q : MixedGraph) → IsObserved (graph_of g.now) (has latent.bits) q → Folds (has latent.bits) (meaning (graph_of g.now) m.now) (meaning q f)) }
    ensures tables { IfOk result (λ f. All IsTable f.mechanisms.items) }
    ensures causes { IfOk result (λ f. AreFoldedCauses (graph_of g.now) (has latent.bits) m.now.causes.items f.causes.items) }
    ensures small { OnOk result ((k : ℕ) → k < length (observed_below (has latent.bits) g.now.n) → IsSmallEnough (graph_of g.now) (has latent.bits) m.now k) }
    ensures fault { IfErr result (IsFoldFault (graph_of g.now) (has latent.bits) m.now) }
{
    let Ok(parts) = parts_of(alloc, g, latent, m) else {
        return Err(FoldFault::NoMemory);
    };
    let Ok(kept) = observed_vertices(alloc, latent, g.n) else {
        return Err(FoldFault::NoMemory);
    };
    if let Some(k) = first_large(m, &parts, &kept) {
        return Err(FoldFault::TooLarge(k));
    }
    match folded(alloc, g, m, latent, &parts, &kept) {
        Ok(model) => Ok(model),
        Err(_) => Err(FoldFault::NoMemory),
    }
}

/// What folding needs of the graph.
fn parts_of(alloc: Global, g: &Graph, latent: VSet, m: &Model) -> Result<Parts, AllocError>
    requires { IsAcceptedModel (graph_of g.now) m.now }
    ensures { IfOk result (AreParts (graph_of g.now) (has latent.bits) m.now) }
{
    let reached = reached_sets(alloc, g, latent, &m.causes)?;
    Ok(Parts {
        order: g.order(),
        projection: project(g, latent),
        reached,
    })
}

/// The place of the first of these vertices whose table would be too large, if there is one.
fn first_large(m: &Model, parts: &Parts, kept: &[u8]) -> Option<u8>
    requires few { length kept.now ≤ 64 }
    requires below { (k : ℕ) → k < length kept.now → slice_index kept.now k < 64 }
    requires sizes { length m.now.sizes.items ≡ parts.now.projection.n }
    requires sets { length parts.now.reached.items ≡ length m.now.causes.items }
    ensures large { IfSome result (IsFirstWrong (length kept.now) (λ k. entries (graph_of parts.now.projection) m.now parts.now.reached.items (slice_index kept.now k) ≤ 1048576)) }
    ensures small { IfNone result (AllRight (length kept.now) (λ k. entries (graph_of parts.now.projection) m.now parts.now.reached.items (slice_index kept.now k) ≤ 1048576)) }
{
    for k in 0..kept.len() {
        if count_entries(&parts.projection, m, &parts.reached, kept[k]) > 1_048_576 {
            return Some(k as u8);
        }
    }
    None
}

/// The folded model, whose vertices are these.
fn folded(
    alloc: Global,
    g: &Graph,
    m: &Model,
    latent: VSet,
    parts: &Parts,
    kept: &[u8],
) -> Result<Model, AllocError>
    requires accepted { IsAcceptedModel (graph_of g.now) m.now }
    requires parts { AreParts (graph_of g.now) (has latent.bits) m.now parts.now }
    requires vertices { kept.now ≡ observed_below (has latent.bits) g.now.n }
    requires small { AllRight (length kept.now) (λ k. entries (graph_of parts.now.projection) m.now parts.now.reached.items (slice_index kept.now k) ≤ 1048576) }
    ensures { IfOk result (λ f. IsFoldedData (graph_of g.now) (graph_of parts.now.projection) (has latent.bits) m.now parts.now.reached.items
        (observed_below (has latent.bits) g.now.n) (members_below (has_some parts.now.reached.items) (length parts.now.reached.items)) f) }
{
    let numbers = reaching_causes(alloc, &parts.reached)?;
    let causes = kept_causes(alloc, g, m, latent, &parts.reached, &numbers)?;
    let sizes = kept_sizes(alloc, m, kept)?;
    let mechanisms = kept_tables(alloc, g, m, latent, parts, kept)?;
    Ok(Model {
        sizes,
        causes,
        mechanisms,
    })
}

/// The sizes of these vertices.
fn kept_sizes(alloc: Global, m: &Model, kept: &[u8]) -> Result<Vec<u32>, AllocError>
    requires { (k : ℕ) → k < length kept.now → slice_index kept.now k < length m.now.sizes.items }
    ensures { IfOk result (λ sizes. AreListed (λ k x. x ≡ slice_index m.now.sizes.items (slice_index kept.now k)) sizes.items (length kept.now)) }
{
    let mut sizes = Vec::new(alloc);
    for k in 0..kept.len() {
        sizes.push(m.sizes[kept[k] as usize])?;
    }
    Ok(sizes)
}

/// The causes of these numbers, each serving the observed vertices that it reaches.
fn kept_causes(
    alloc: Global,
    g: &Graph,
    m: &Model,
    latent: VSet,
    reached: &[VSet],
    numbers: &[usize],
) -> Result<Vec<Cause>, AllocError>
    requires sets { length reached.now ≡ length m.now.causes.items }
    requires within { (i : ℕ) → i < length numbers.now → slice_index numbers.now i < length m.now.causes.items }
    ensures { IfOk result (λ causes. AreListed (λ i c. IsCauseOf (graph_of g.now) (has latent.bits) m.now.causes.items (λ j v. has (mask_at reached.now j) v) (slice_index numbers.now i) c) causes.items (length numbers.now)) }
{
    let mut causes = Vec::new(alloc);
    for i in 0..numbers.len() {
        let j = numbers[i];
        let weights = Vec::from_slice(alloc, m.causes[j].weights.as_slice())?;
        let children = renumber(latent, g.n, reached[j]);
        causes.push(Cause { weights, children })?;
    }
    Ok(causes)
}

/// The tables of these vertices.
fn kept_tables(
    alloc: Global,
    g: &Graph,
    m: &Model,
    latent: VSet,
    parts: &Parts,
    kept: &[u8],
) -> Result<Vec<Mechanism>, AllocError>
    requires accepted { IsAcceptedModel (graph_of g.now) m.now }
    requires parts { AreParts (graph_of g.now) (has latent.bits) m.now parts.now }
    requires below { (k : ℕ) → k < length kept.now → slice_index kept.now k < g.now.n }
    requires small { AllRight (length kept.now) (λ k. entries (graph_of parts.now.projection) m.now parts.now.reached.items (slice_index kept.now k) ≤ 1048576) }
    ensures { IfOk result (λ mechanisms. AreListed (λ k x. IsTableFor (graph_of g.now) (graph_of parts.now.projection) (has latent.bits) m.now parts.now.reached.items (slice_index kept.now k) x) mechanisms.items (length kept.now)) }
{
    let mut mechanisms = Vec::new(alloc);
    for k in 0..kept.len() {
        let outputs = table(alloc, g, m, latent, parts, kept[k])?;
        mechanisms.push(Mechanism::Table { outputs })?;
    }
    Ok(mechanisms)
}
