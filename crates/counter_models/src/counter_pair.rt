//! The two models as a value.

use finite_models::Model;
use hedge::Choice;
use mixed_graph::VSet;

/// Two models that agree on all observations and differ on the effect.
///
/// The event is that the carried bits of its members have an even sum: under the intervention its probability is 1/2 in the first and `1/2 + 1/2^(noise + 1)` in the second.
#[derive(Drop)]
pub struct CounterPair {
    pub first: Model,
    pub second: Model,
    /// For each kept vertex outside y the vertex that it carries to.
    pub carry: Choice,
    pub event: VSet,
    /// The number of causes that are no links.
    pub noise: u32,
}
