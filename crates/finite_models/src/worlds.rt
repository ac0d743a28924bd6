//! The worlds of a model, and their weights.

ghost use Rattle.std.specs.Prelude.{◌≡◌, ℕ, ◌+◌, ◌^◌, ◌<◌, min, SomeIff, length, slice_index};
ghost use Rattle.finite_models.specs.Sums.{sum_below, product_below};
ghost use Rattle.finite_models.specs.Data.{weights_of};
ghost use Rattle.finite_models.specs.Worlds.{values_of, weight_sum, value_in_world, HaveWeight};

use crate::model::Model;

/// The number of worlds, at most one more than the limit.
pub fn count_worlds(m: &Model) -> u128
    ensures { result ≡ min (product_below (length m.now.causes.items) (values_of m.now.causes.items)) (2 ^ 20 + 1) }
{
    let mut count = 1u128;
    for j in 0..m.causes.len() {
        count = (count * m.causes[j].weights.len() as u128).min((1 << 20) + 1);
    }
    count
}

/// The sum of the weights.
fn sum_of(weights: &[u32]) -> u128
    ensures { result ≡ sum_below (length weights.now) (λ i. slice_index weights.now i) }
{
    let mut sum = 0u128;
    for w in weights {
        sum += u128::from(*w);
    }
    sum
}

/// The product of the causes' sums of weights, if it fits.
pub fn total_weight(m: &Model) -> Option<u128>
    requires { HaveWeight m.now.causes.items }
    ensures { SomeIff result (product_below (length m.now.causes.items) (weight_sum m.now.causes.items) < 2 ^ 128) (product_below (length m.now.causes.items) (weight_sum m.now.causes.items)) }
{
    let mut total = 1u128;
    for j in 0..m.causes.len() {
        total = total.checked_mul(sum_of(&m.causes[j].weights))?;
    }
    Some(total)
}

/// The value of cause j in a world.
pub fn cause_value(m: &Model, world: usize, j: usize) -> usize
    requires weight { HaveWeight m.now.causes.items }
    requires below { j < length m.now.causes.items }
    ensures { result ≡ value_in_world m.now.causes.items world j }
{
    let mut rest = world;
    for k in 0..j {
        rest /= m.causes[k].weights.len();
    }
    rest % m.causes[j].weights.len()
}

/// The weight of a world: the product of the weights of its causes' values.
pub fn world_weight(m: &Model, world: usize) -> u128
    requires weight { HaveWeight m.now.causes.items }
    requires fits { product_below (length m.now.causes.items) (weight_sum m.now.causes.items) < 2 ^ 128 }
    ensures { result ≡ product_below (length m.now.causes.items) (λ j. slice_index (weights_of m.now.causes.items j) (value_in_world m.now.causes.items world j)) }
{
    let mut rest = world;
    let mut weight = 1u128;
    for j in 0..m.causes.len() {
        let c = &m.causes[j];
        weight *= u128::from(c.weights[rest % c.weights.len()]);
        rest /= c.weights.len();
    }
    weight
}
