//! The entries of a folded mechanism's table.

ghost use Rattle.std.specs.Prelude.{◌≡◌, ℕ, ◌<◌, ◌≤◌, IfOk, length};
ghost use Rattle.mixed_graph.specs.Vocabulary.{has, graph_of};
ghost use Rattle.finite_models.specs.Vocabulary.{IsAcceptedModel};
ghost use Rattle.hidden_models.specs.Parts.{AreParts};
ghost use Rattle.hidden_models.specs.Tables.{entries, entry_at, AreEntries};

use crate::digits::{cause_values, parent_values};
use crate::filling::{fill, mechanism_value};
use crate::parts::Parts;
use crate::ranges::{causes_range, count_entries};
use finite_models::Model;
use mixed_graph::{Graph, VSet};
use std::alloc::{AllocError, Global};

/// The entry at a place of the table of the observed vertex v.
fn entry(
    alloc: Global,
    g: &Graph,
    m: &Model,
    latent: VSet,
    parts: &Parts,
    v: u8,
    place: usize,
) -> Result<u32, AllocError>
    requires accepted { IsAcceptedModel (graph_of g.now) m.now }
    requires parts { AreParts (graph_of g.now) (has latent.bits) m.now parts.now }
    requires vertex { v < g.now.n }
    requires small { entries (graph_of parts.now.projection) m.now parts.now.reached.items v ≤ 1048576 }
    ensures { IfOk result (λ x. x ≡ entry_at (graph_of g.now) (graph_of parts.now.projection) (has latent.bits) m.now parts.now.reached.items v place) }
{
    let worlds = causes_range(m, &parts.reached, v, 1) as usize;
    let at = parent_values(&parts.projection, m, v, place / worlds);
    let world = cause_values(alloc, m, &parts.reached, v, place % worlds)?;
    let values = fill(g, m, latent, &parts.order, &at, &world);
    Ok(mechanism_value(g, m, v, &world, &values))
}

/// The table of the observed vertex v.
pub fn table(
    alloc: Global,
    g: &Graph,
    m: &Model,
    latent: VSet,
    parts: &Parts,
    v: u8,
) -> Result<Vec<u32>, AllocError>
    requires accepted { IsAcceptedModel (graph_of g.now) m.now }
    requires parts { AreParts (graph_of g.now) (has latent.bits) m.now parts.now }
    requires vertex { v < g.now.n }
    requires small { entries (graph_of parts.now.projection) m.now parts.now.reached.items v ≤ 1048576 }
    ensures { IfOk result (λ outputs. AreEntries (graph_of g.now) (graph_of parts.now.projection) (has latent.bits) m.now parts.now.reached.items v outputs.items) }
{
    let count = count_entries(&parts.projection, m, &parts.reached, v) as usize;
    let mut outputs = Vec::new(alloc);
    for place in 0..count {
        let output = entry(alloc, g, m, latent, parts, v, place)?;
        outputs.push(output)?;
    }
    Ok(outputs)
}
