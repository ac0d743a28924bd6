//! What is answered of an effect over counts.

use crate::lines::{crossing_text, lines_text};
use crate::objects::{push_bounds, push_crossing};
use answer_json::Object;
use bound_values::{Found, Question};
use count_table::Counts;
use mixed_graph::Names;
use replies::Outcome;
use std::alloc::{AllocError, Global};
use told::{Told, Writing};

/// What is answered of an effect over counts: its bounds at each level, or a stratum where bounds cross.
#[derive(Drop)]
pub struct Answer {
    pub counts: Counts,
    pub question: Question,
    pub exact: bool,
    pub found: Found,
}

impl Told for Answer {
    ghost use Rattle.bounds_command.specs.BoundsTelling.{bounds_telling};

    ghost telling = { bounds_telling };

    fn outcome(&self) -> Outcome {
        match &self.found {
            Found::Bounded(_) => Outcome::Yes,
            Found::Crossed(_) => Outcome::No,
        }
    }

    fn text(&self, alloc: Global, names: &Names, _: Writing) -> Result<Vec<u8>, AllocError> {
        let (counts, question) = (&self.counts, self.question);
        match &self.found {
            Found::Bounded(bounds) => lines_text(alloc, names, counts, question, bounds),
            Found::Crossed(crossing) => crossing_text(alloc, names, counts, question, crossing),
        }
    }

    fn push_members(
        &self,
        object: &mut Object,
        names: &Names,
        _: Writing,
    ) -> Result<(), AllocError> {
        let (counts, question) = (&self.counts, self.question);
        match &self.found {
            Found::Bounded(bounds) => {
                push_bounds(object, names, counts, question, self.exact, bounds)
            }
            Found::Crossed(crossing) => push_crossing(object, names, counts, question, crossing),
        }
    }
}
