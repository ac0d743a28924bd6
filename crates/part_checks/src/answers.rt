//! What parts make up, and why they are refused.

use derived_parts::PartsFault;
use mixed_graph::VSet;
use natural_id::{Part, Split, Witness};
use treated_id::Pair;

/// Why the parts of a nested effect aren't accepted.
#[derive(Clone, Copy)]
pub enum NaturalPartsFault {
    /// A child of a treatment leads to y both through m and past it, so that no parts make up the effect.
    Witness(Witness),
    /// A district reads both values of a treatment, so that no parts make up the effect.
    Split(Split),
    /// The parts aren't those of the districts, or one isn't accepted.
    Parts(PartsFault),
}

/// Why the parts of an effect among the treated aren't accepted.
#[derive(Clone, Copy)]
pub enum TreatedPartsFault {
    /// A treatment is joined to a child of its own, so that no parts make up the effect.
    Confounded(Pair),
    /// The parts aren't those of the districts, or one isn't accepted.
    Parts(PartsFault),
}

/// The product of the parts, each with x as observed where it is in the district, and else as it is set, summed over a set; over P(x, z) as observed.
#[derive(Drop)]
pub struct TreatedFormula {
    pub summed: VSet,
    pub parts: Vec<Part>,
}
