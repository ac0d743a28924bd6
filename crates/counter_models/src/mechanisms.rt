//! The mechanisms of both models.

ghost use Rattle.std.specs.Prelude.{◌≡◌, ℕ, ◌<◌, ◌≤◌, IfOk, length, get_or, slice_index};
ghost use Rattle.mixed_graph.specs.Vocabulary.{has};
ghost use Rattle.finite_models.specs.declared.model.Mechanism.{Mechanism};
ghost use Rattle.counter_models.specs.Pairs.{HasLowLinks, IsMechanismOf, size_at, in_first, in_second};

use crate::carrying::Carrying;
use crate::parts::{carried_part, hedge_part};
use finite_models::Mechanism;
use hedge::Hedge;
use mixed_graph::VSet;
use std::alloc::{AllocError, Global};

/// The mechanism of v, where its hedge bit comes from s.
fn mechanism(
    alloc: Global,
    h: &Hedge,
    carried: &Carrying,
    s: VSet,
    v: u8,
) -> Result<Mechanism, AllocError>
    requires vertex { v < 64 }
    requires low { HasLowLinks h.now }
    ensures { IfOk result (IsMechanismOf h.now carried.now.kept.bits carried.now.carry.next s.bits v) }
{
    let hedge = if h.big.has(v) {
        Some(hedge_part(alloc, h, s, v)?)
    } else {
        None
    };
    let carried = if carried.kept.has(v) {
        Some(carried_part(alloc, h, carried, v)?)
    } else {
        None
    };
    Ok(Mechanism::Parity { hedge, carried })
}

/// The mechanisms of the first model.
pub fn first_mechanisms(
    alloc: Global,
    n: u32,
    h: &Hedge,
    carried: &Carrying,
) -> Result<Vec<Mechanism>, AllocError>
    requires few { n ≤ 64 }
    requires low { HasLowLinks h.now }
    ensures count { IfOk result (λ m. length m.items ≡ n) }
    ensures each { IfOk result (λ m. (v : ℕ) → v < n → (past : Mechanism) → IsMechanismOf h.now carried.now.kept.bits carried.now.carry.next (in_first h.now v) v (get_or m.items v past)) }
{
    let mut mechanisms = Vec::new(alloc);
    for v in 0..n as u8 {
        mechanisms.push(mechanism(alloc, h, carried, h.big, v)?)?;
    }
    Ok(mechanisms)
}

/// The mechanisms of the second model.
pub fn second_mechanisms(
    alloc: Global,
    n: u32,
    h: &Hedge,
    carried: &Carrying,
) -> Result<Vec<Mechanism>, AllocError>
    requires few { n ≤ 64 }
    requires low { HasLowLinks h.now }
    ensures count { IfOk result (λ m. length m.items ≡ n) }
    ensures each { IfOk result (λ m. (v : ℕ) → v < n → (past : Mechanism) → IsMechanismOf h.now carried.now.kept.bits carried.now.carry.next (in_second h.now v) v (get_or m.items v past)) }
{
    let mut mechanisms = Vec::new(alloc);
    for v in 0..n as u8 {
        let s = if h.small.has(v) { h.small } else { h.big };
        mechanisms.push(mechanism(alloc, h, carried, s, v)?)?;
    }
    Ok(mechanisms)
}

/// The numbers of values.
pub fn sizes(alloc: Global, n: u32, h: &Hedge, kept: VSet) -> Result<Vec<u32>, AllocError>
    requires few { n ≤ 64 }
    ensures count { IfOk result (λ s. length s.items ≡ n) }
    ensures each { IfOk result (λ s. (v : ℕ) → v < n → slice_index s.items v ≡ size_at h.now kept.bits v) }
{
    let mut sizes = Vec::new(alloc);
    for v in 0..n as u8 {
        let size = match (h.big.has(v), kept.has(v)) {
            (true, true) => 4,
            (false, false) => 1,
            _ => 2,
        };
        sizes.push(size)?;
    }
    Ok(sizes)
}
