//! The value of a vertex with parts.

ghost use Rattle.std.specs.Prelude.{◌≡◌, ◌%◌, ◌<◌, ◌≤◌, EachIndex, map, sum, length, slice_index};
ghost use Rattle.finite_models.specs.Vocabulary.{part_bit, parity_value, HasCauses, HaveCauses};
ghost use Rattle.hidden_models.specs.Values.{IsWorldOf};

use finite_models::{Model, Part, carried_parity, hedge_parity};

/// The parity of the causes' values in a world.
fn cause_parity(world: &[usize], causes: &[u32]) -> u32
    requires { EachIndex causes.now (λ i. slice_index causes.now i < length world.now) }
    ensures { result ≡ sum (map (λ j. slice_index world.now j) causes.now) % 2 }
{
    let mut parity = 0;
    for j in causes {
        parity = (parity + world[*j as usize] % 2) % 2;
    }
    parity as u32
}

/// The bit of a part in a world, where the vertices have these values and the vertex this hedge bit.
fn bit_of(m: &Model, world: &[usize], values: &[u32; 64], own: u32, p: &Part) -> u32
    requires few { length m.now.mechanisms.items ≤ 64 }
    requires world { IsWorldOf m.now.causes.items world.now }
    requires causes { HasCauses m.now p.now }
    ensures { result ≡ part_bit (length m.now.mechanisms.items) m.now.mechanisms.items (λ v. slice_index values.now v) (λ j. slice_index world.now j) own p.now }
{
    let n = m.mechanisms.len() as u32;
    let hedges = hedge_parity(n, values, p.hedge_of);
    let carrieds = carried_parity(m, values, p.carried_of);
    let causes = cause_parity(world, &p.causes);
    let own = if p.own_hedge { own % 2 } else { 0 };
    (hedges + carrieds + own + causes) % 2
}

/// The value of a vertex with these parts in a world, where the vertices have these values.
pub fn value_of_parts(
    m: &Model,
    world: &[usize],
    values: &[u32; 64],
    hedge: &Option<Part>,
    carried: &Option<Part>,
) -> u32
    requires few { length m.now.mechanisms.items ≤ 64 }
    requires world { IsWorldOf m.now.causes.items world.now }
    requires hedge_causes { HaveCauses m.now hedge.now }
    requires carried_causes { HaveCauses m.now carried.now }
    ensures { result ≡ parity_value (length m.now.mechanisms.items) m.now.mechanisms.items (λ v. slice_index values.now v) (λ j. slice_index world.now j) hedge.now carried.now }
{
    match hedge {
        None => match carried {
            None => 0,
            Some(c) => bit_of(m, world, values, 0, c),
        },
        Some(h) => {
            let first = bit_of(m, world, values, 0, h);
            match carried {
                None => first,
                Some(c) => first + 2 * bit_of(m, world, values, first, c),
            }
        }
    }
}
