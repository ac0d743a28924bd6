//! The candidates that are made of the target's term as a whole, in the order in which they are preferred where they are equally short.

ghost use Rattle.std.specs.Prelude.{ℕ, ◌<◌};
ghost use Rattle.mixed_graph.specs.Vocabulary.{has};
ghost use Rattle.do_rules.specs.Vocabulary.{AreThreeSets};

use crate::hiding::{Hidden, Sweep, derivation_in, hide};
use crate::listing::minimal_sets;
use do_derivation::Derivation;
use held_steps::{Candidate, PutIn, adjusted, planned, replayed};
use mixed_graph::{Graph, VSet};
use prob_expr::Target;
use std::alloc::{AllocError, Global};

/// Adds a candidate, where there is one.
fn push_found(found: &mut Vec<Candidate>, candidate: Option<Candidate>) -> Result<(), AllocError> {
    if let Some(candidate) = candidate {
        found.push(candidate)?;
    }
    Ok(())
}

/// The adjustment formula of the first set with so many members for which its derivation stands.
fn adjusted_by_one(
    alloc: Global,
    g: &Graph,
    t: &Target,
    sets: &Vec<VSet>,
    size: u32,
) -> Result<Option<Candidate>, AllocError> {
    for z in sets {
        if z.count() == size {
            if let Some(candidate) = adjusted(alloc, g, t, *z)? {
                return Ok(Some(candidate));
            }
        }
    }
    Ok(None)
}

/// Adds that of the smallest minimal sets, the first for which it stands.
fn add_adjusted(
    alloc: Global,
    g: &Graph,
    t: &Target,
    sets: &Vec<VSet>,
    found: &mut Vec<Candidate>,
) -> Result<(), AllocError> {
    for size in 0..64u32 {
        if let Some(candidate) = adjusted_by_one(alloc, g, t, sets, size)? {
            found.push(candidate)?;
            return Ok(());
        }
    }
    Ok(())
}

/// Adds what comes of hiding vertices in an order: whether one was hidden.
fn add_hidden(
    alloc: Global,
    g: &Graph,
    t: &Target,
    sweep: Sweep,
    found: &mut Vec<Candidate>,
) -> Result<bool, AllocError>
    requires sets { AreThreeSets g.now.n (has t.now.x.bits) (has t.now.y.bits) (has t.now.given.bits) }
    requires some { 0 < t.now.y.bits }
{
    let Hidden { graph, hidden } = hide(alloc, g, t, sweep)?;
    let kept = VSet::below(g.n).difference(hidden);
    let z = kept.difference(t.x).difference(t.y).difference(t.given);
    push_found(found, planned(alloc, g, t, z, false)?)?;
    if !t.given.is_empty() {
        push_found(found, planned(alloc, g, t, z, true)?)?;
    }
    if hidden.is_empty() {
        return Ok(false);
    }
    if let Some(derivation) = derivation_in(alloc, &graph, t)? {
        push_found(found, replayed(alloc, g, t, &derivation, PutIn::All, kept)?)?;
    }
    Ok(true)
}

/// Adds the procedure's own derivation with definitions put in, those that are cited once and then all.
fn add_own(
    alloc: Global,
    g: &Graph,
    t: &Target,
    d: &Derivation,
    found: &mut Vec<Candidate>,
) -> Result<(), AllocError> {
    let all = VSet::below(g.n);
    push_found(found, replayed(alloc, g, t, d, PutIn::CitedOnce, all)?)?;
    push_found(found, replayed(alloc, g, t, d, PutIn::All, all)?)
}

/// Adds the adjustment formula of the smallest minimal set.
fn add_by_sets(
    alloc: Global,
    g: &Graph,
    t: &Target,
    found: &mut Vec<Candidate>,
) -> Result<(), AllocError>
    requires sets { AreThreeSets g.now.n (has t.now.x.bits) (has t.now.y.bits) (has t.now.given.bits) }
{
    if !t.given.is_empty() {
        return Ok(());
    }
    let sets = minimal_sets(alloc, g, t.x, t.y)?;
    add_adjusted(alloc, g, t, &sets, found)
}

/// The candidates for a target as a whole, besides the procedure's formula, whose derivation is d.
pub(crate) fn whole(
    alloc: Global,
    g: &Graph,
    t: &Target,
    d: &Derivation,
) -> Result<Vec<Candidate>, AllocError>
    requires sets { AreThreeSets g.now.n (has t.now.x.bits) (has t.now.y.bits) (has t.now.given.bits) }
    requires some { 0 < t.now.y.bits }
{
    let mut found = Vec::new(alloc);
    if t.x.is_empty() {
        return Ok(found);
    }
    add_by_sets(alloc, g, t, &mut found)?;
    let down = add_hidden(alloc, g, t, Sweep::Down, &mut found)?;
    let up = add_hidden(alloc, g, t, Sweep::Up, &mut found)?;
    if down || up {
        return Ok(found);
    }
    add_own(alloc, g, t, d, &mut found)?;
    Ok(found)
}
