//! The parities of which mechanisms of parts are made.

ghost use Rattle.std.specs.Prelude.{◌≡◌, ℕ, ◌/◌, ◌%◌, ◌<◌, ◌≤◌, EachIndex, cond, map, sum, length, slice_index};
ghost use Rattle.mixed_graph.specs.Vocabulary.{has};
ghost use Rattle.finite_models.specs.Sums.{sum_below};
ghost use Rattle.finite_models.specs.Data.{hedged, hedge_bit, carried_bit, part_bit, parity_value};
ghost use Rattle.finite_models.specs.Worlds.{value_in_world, HaveWeight, HasCauses, HaveCauses};

use crate::inputs::is_hedged;
use crate::model::{Mechanism, Model, Part};
use crate::worlds::cause_value;
use mixed_graph::VSet;

/// The parity of the members' hedge bits.
pub fn hedge_parity(n: u32, values: &[u32; 64], members: VSet) -> u32
    requires { n ≤ 64 }
    ensures { result ≡ sum_below n (λ k. cond (has members.bits k) (hedge_bit (slice_index values.now k)) 0) % 2 }
{
    let mut parity = 0;
    for v in 0..n as u8 {
        if members.has(v) {
            parity = (parity + values[v as usize] % 2) % 2;
        }
    }
    parity
}

/// The carried bit in a value of a vertex with this mechanism.
fn carried_in(k: &Mechanism, value: u32) -> u32
    ensures { result ≡ cond (hedged k.now) (value / 2) value }
{
    if is_hedged(k) { value / 2 } else { value }
}

/// The parity of the members' carried bits.
pub fn carried_parity(m: &Model, values: &[u32; 64], members: VSet) -> u32
    requires { length m.now.mechanisms.items ≤ 64 }
    ensures { result ≡ sum_below (length m.now.mechanisms.items) (λ k. cond (has members.bits k) (carried_bit m.now.mechanisms.items k (slice_index values.now k)) 0) % 2 }
{
    let mut parity = 0;
    for v in 0..m.mechanisms.len() {
        if members.has(v as u8) {
            parity = (parity + carried_in(&m.mechanisms[v], values[v]) % 2) % 2;
        }
    }
    parity
}

/// The parity of the causes' values in a world.
fn cause_parity(m: &Model, world: usize, causes: &[u32]) -> u32
    requires weight { HaveWeight m.now.causes.items }
    requires below { EachIndex causes.now (λ i. slice_index causes.now i < length m.now.causes.items) }
    ensures { result ≡ sum (map (value_in_world m.now.causes.items world) causes.now) % 2 }
{
    let mut parity = 0;
    for j in causes {
        parity = (parity + cause_value(m, world, *j as usize) % 2) % 2;
    }
    parity as u32
}

/// The bit of a part in a world, where the vertices have these values and the vertex this hedge bit.
fn bit_of(m: &Model, world: usize, values: &[u32; 64], own: u32, p: &Part) -> u32
    requires few { length m.now.mechanisms.items ≤ 64 }
    requires weight { HaveWeight m.now.causes.items }
    requires causes { HasCauses m.now p.now }
    ensures { result ≡ part_bit (length m.now.mechanisms.items) m.now.mechanisms.items (λ v. slice_index values.now v) (value_in_world m.now.causes.items world) own p.now }
{
    let n = m.mechanisms.len() as u32;
    let hedges = hedge_parity(n, values, p.hedge_of);
    let carrieds = carried_parity(m, values, p.carried_of);
    let causes = cause_parity(m, world, &p.causes);
    let own = if p.own_hedge { own % 2 } else { 0 };
    (hedges + carrieds + own + causes) % 2
}

/// The value of a vertex with these parts in a world, where the vertices have these values.
pub fn value_of_parts(
    m: &Model,
    world: usize,
    values: &[u32; 64],
    hedge: &Option<Part>,
    carried: &Option<Part>,
) -> u32
    requires few { length m.now.mechanisms.items ≤ 64 }
    requires weight { HaveWeight m.now.causes.items }
    requires hedge_causes { HaveCauses m.now hedge.now }
    requires carried_causes { HaveCauses m.now carried.now }
    ensures { result ≡ parity_value (length m.now.mechanisms.items) m.now.mechanisms.items (λ v. slice_index values.now v) (value_in_world m.now.causes.items world) hedge.now carried.now }
{
    match hedge {
        None => match carried {
            None => 0,
            Some(c) => bit_of(m, world, values, 0, c),
        },
        Some(h) => {
            let first = bit_of(m, world, values, 0, h);
            match carried {
                None => first,
                Some(c) => first + 2 * bit_of(m, world, values, first, c),
            }
        }
    }
}
