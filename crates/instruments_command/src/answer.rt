//! What is answered of the instruments of an effect.

use crate::objects::push_listing;
use crate::texts::listing_text;
use answer_json::Object;
use instrument_sets::Candidate;
use mixed_graph::Names;
use replies::Outcome;
use std::alloc::{AllocError, Global};
use targets::Sets;
use told::{Told, Writing};

/// What is answered of the instruments for the effect of x on y.
#[derive(Drop)]
pub enum Answer {
    /// Each vertex outside x and y with the minimal sets of strata in which it is an instrument; some vertex has one.
    Listed(Sets, Vec<Candidate>),
    /// No vertex is an instrument in any strata.
    NoInstrument(Sets),
}

impl Told for Answer {
    ghost use Rattle.instruments_command.specs.Telling.{instruments_telling};

    ghost telling = { instruments_telling };

    fn outcome(&self) -> Outcome {
        match self {
            Answer::Listed(_, _) => Outcome::Yes,
            Answer::NoInstrument(_) => Outcome::No,
        }
    }

    fn text(&self, alloc: Global, names: &Names, _: Writing) -> Result<Vec<u8>, AllocError> {
        match self {
            Answer::Listed(_, list) => listing_text(alloc, names, list.as_slice()),
            Answer::NoInstrument(_) => Vec::from_slice(alloc, b"none\n"),
        }
    }

    fn push_members(
        &self,
        object: &mut Object,
        names: &Names,
        _: Writing,
    ) -> Result<(), AllocError> {
        match self {
            Answer::Listed(sets, list) => {
                push_listing(object, "instruments", names, *sets, list.as_slice())
            }
            Answer::NoInstrument(sets) => push_listing(object, "none", names, *sets, &[]),
        }
    }
}
