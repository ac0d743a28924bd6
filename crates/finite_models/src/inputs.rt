//! The vertices with a hedge bit or a carried bit, and what may read them.

ghost use Rattle.std.specs.Prelude.{◌≡◌, ℕ, ◌<◌, ◌≤◌, ◌↔◌, EachIndex, IsTrue, IsSome, IfSome, IfNone, Option, length, slice_index};
ghost use Rattle.mixed_graph.specs.Vocabulary.{has, graph_of};
ghost use Rattle.finite_models.specs.Data.{hedged, carries, has_hedge, has_carried};
ghost use Rattle.finite_models.specs.Inputs.{IsBitCause, MayRead, HedgeMayRead, CarriedMayRead, HasInputs, HasInputsAt};
ghost use Rattle.finite_models.specs.Sound.{IsFirstWrong, AllRight};

use crate::model::{Mechanism, Model, Part};
use mixed_graph::{Graph, VSet};

/// Whether the mechanism has a hedge bit.
pub fn is_hedged(k: &Mechanism) -> bool
    ensures { result ≡ hedged k.now }
{
    match k {
        Mechanism::Table { .. } => false,
        Mechanism::Parity { hedge, .. } => hedge.is_some(),
    }
}

/// Whether the mechanism has a carried bit.
fn carries_bit(k: &Mechanism) -> bool
    ensures { result ≡ carries k.now }
{
    match k {
        Mechanism::Table { .. } => false,
        Mechanism::Parity { carried, .. } => carried.is_some(),
    }
}

/// The vertices with a hedge bit.
fn with_hedge(mechanisms: &[Mechanism]) -> VSet
    requires { length mechanisms.now ≤ 64 }
    ensures { (v : ℕ) → has result.bits v ≡ has_hedge mechanisms.now v }
{
    let mut found = VSet::empty();
    for v in 0..mechanisms.len() {
        found = found.union(VSet::one(v as u8).only_if(is_hedged(&mechanisms[v])));
    }
    found
}

/// The vertices with a carried bit.
fn with_carried(mechanisms: &[Mechanism]) -> VSet
    requires { length mechanisms.now ≤ 64 }
    ensures { (v : ℕ) → has result.bits v ≡ has_carried mechanisms.now v }
{
    let mut found = VSet::empty();
    for v in 0..mechanisms.len() {
        found = found.union(VSet::one(v as u8).only_if(carries_bit(&mechanisms[v])));
    }
    found
}

/// Whether each member of s is one of t.
fn lies_in(s: VSet, t: VSet) -> bool
    ensures { IsTrue result ↔ ((k : ℕ) → IsTrue (has s.bits k) → IsTrue (has t.bits k)) }
{
    s.difference(t).is_empty()
}

/// Whether j is a cause of v with two values.
fn is_bit_cause(m: &Model, v: u8, j: u32) -> bool
    requires { v < 64 }
    ensures { IsTrue result ↔ IsBitCause m.now v j }
{
    if j as usize >= m.causes.len() {
        return false;
    }
    let c = &m.causes[j as usize];
    c.weights.len() == 2 && c.children.has(v)
}

/// Whether each is a cause of v with two values.
fn are_bit_causes(m: &Model, v: u8, causes: &[u32]) -> bool
    requires { v < 64 }
    ensures { IsTrue result ↔ EachIndex causes.now (λ i. IsBitCause m.now v (slice_index causes.now i)) }
{
    for j in causes {
        if !is_bit_cause(m, v, *j) {
            return false;
        }
    }
    true
}

/// Whether the part reads bits of parents of v, and causes of v.
fn may_read(g: &Graph, m: &Model, v: u8, p: &Part) -> bool
    requires vertex { v < 64 }
    requires few { length m.now.mechanisms.items ≤ 64 }
    ensures { IsTrue result ↔ MayRead (graph_of g.now) m.now v p.now }
{
    let row = g.parents(v);
    let hedges = lies_in(p.hedge_of, row.intersection(with_hedge(&m.mechanisms)));
    let carrieds = lies_in(p.carried_of, row.intersection(with_carried(&m.mechanisms)));
    let causes = are_bit_causes(m, v, &p.causes);
    hedges && carrieds && causes
}

/// Whether the hedge part of v, if there is one, reads what it may.
pub fn hedge_may_read(g: &Graph, m: &Model, v: u8, part: &Option<Part>) -> bool
    requires vertex { v < 64 }
    requires few { length m.now.mechanisms.items ≤ 64 }
    ensures { IsTrue result ↔ HedgeMayRead (graph_of g.now) m.now v part.now }
{
    match part {
        None => true,
        Some(p) => !p.own_hedge && may_read(g, m, v, p),
    }
}

/// Whether the carried part of v, if there is one, reads what it may beside this hedge part.
pub fn carried_may_read(
    g: &Graph,
    m: &Model,
    v: u8,
    hedge: &Option<Part>,
    part: &Option<Part>,
) -> bool
    requires vertex { v < 64 }
    requires few { length m.now.mechanisms.items ≤ 64 }
    ensures { IsTrue result ↔ CarriedMayRead (graph_of g.now) m.now v hedge.now part.now }
{
    match part {
        None => true,
        Some(p) => (hedge.is_some() || !p.own_hedge) && may_read(g, m, v, p),
    }
}
