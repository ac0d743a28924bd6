//! What the mechanism of one vertex reads.

ghost use Rattle.std.specs.Prelude.{◌≡◌, ℕ, suc, ◌<◌, ◌&&◌, ◌==◌, IsTrue, IfOk, slice_index};
ghost use Rattle.mixed_graph.specs.Vocabulary.{has};
ghost use Rattle.counter_models.specs.Pairs.{HasLowLinks, links_of, is_linked, before, small_cause, kept_cause, link_causes, IsHedgePart, IsCarriedPart};

use crate::carrying::Carrying;
use crate::causes::count_links;
use finite_models::Part;
use hedge::{Choice, Hedge};
use mixed_graph::VSet;
use std::alloc::{AllocError, Global};

/// The members of the set that chose v.
fn choosers(choice: &Choice, set: VSet, v: u8) -> VSet
    ensures { (u : ℕ) → has result.bits u ≡ (has set.bits u && (slice_index choice.now.next u == v)) }
{
    let mut found = VSet::empty();
    for u in 0..64u8 {
        let chose = set.has(u) && choice.next[u as usize] == v;
        found = found.union(VSet::one(u).only_if(chose));
    }
    found
}

/// How many members of the set are below v.
fn count_before(set: VSet, v: u8) -> u32
    requires { v < 64 }
    ensures { result ≡ before set.bits v }
{
    set.intersection(VSet::below(v as u32)).count()
}

/// The cause of v in small.
fn small_cause_of(h: &Hedge, v: u8) -> u32
    requires { v < 64 }
    ensures { result ≡ small_cause h.now v }
{
    count_links(h) + count_before(h.small, v)
}

/// The cause of the kept vertex v.
fn kept_cause_of(h: &Hedge, kept: VSet, v: u8) -> u32
    requires { v < 64 }
    ensures { result ≡ kept_cause h.now kept.bits v }
{
    count_links(h) + h.small.count() + count_before(kept, v)
}

/// Whether link j is that of an entry in s and has the end v.
fn is_link_at(h: &Hedge, s: VSet, v: u8, j: usize) -> bool
    requires low { HasLowLinks h.now }
    requires link { j < links_of h.now }
    ensures { result ≡ (is_linked h.now j v && has s.bits (slice_index h.now.links.found (suc j))) }
{
    let entry = h.links.found[j + 1];
    let partner = h.links.partner[j + 1];
    let is_end = v == entry || v == partner;
    let inside = s.has(entry);
    is_end && inside
}

/// The causes of the links of entries in s that have the end v.
fn links_at(alloc: Global, h: &Hedge, s: VSet, v: u8) -> Result<Vec<u32>, AllocError>
    requires { HasLowLinks h.now }
    ensures { IfOk result (λ c. c.items ≡ link_causes h.now s.bits v) }
{
    let mut causes = Vec::new(alloc);
    for j in 0..count_links(h) {
        if is_link_at(h, s, v, j as usize) {
            causes.push(j)?;
        }
    }
    Ok(causes)
}

/// The hedge bit of v from the members of s.
pub fn hedge_part(alloc: Global, h: &Hedge, s: VSet, v: u8) -> Result<Part, AllocError>
    requires vertex { v < 64 }
    requires low { HasLowLinks h.now }
    ensures { IfOk result (IsHedgePart h.now s.bits v) }
{
    let mut causes = links_at(alloc, h, s, v)?;
    if h.small.has(v) {
        causes.push(small_cause_of(h, v))?;
    }
    Ok(Part {
        hedge_of: choosers(&h.choice, s, v),
        carried_of: VSet::empty(),
        own_hedge: false,
        causes,
    })
}

/// The carried bit of the kept vertex v.
pub fn carried_part(alloc: Global, h: &Hedge, carried: &Carrying, v: u8) -> Result<Part, AllocError>
    requires vertex { v < 64 }
    ensures { IfOk result (IsCarriedPart h.now carried.now.kept.bits carried.now.carry.next v) }
{
    let cause = kept_cause_of(h, carried.kept, v);
    Ok(Part {
        hedge_of: VSet::empty(),
        carried_of: choosers(&carried.carry, carried.kept, v),
        own_hedge: h.roots.has(v),
        causes: vec![in alloc; cause]?,
    })
}
