//! What is answered of the pairs of a graph.

use crate::differences::Measured;
use crate::lines::{difference_lines, pair_lines};
use crate::objects::{push_differences, push_none, push_pairs};
use answer_json::Object;
use count_table::Counts;
use implications::Implication;
use mixed_graph::Names;
use replies::Outcome;
use std::alloc::{AllocError, Global};
use told::{Told, Writing};

/// What is answered of the pairs of a graph.
#[derive(Drop)]
pub enum Answer {
    /// No set separates any two vertices.
    NoPairs,
    /// The pairs that some set separates.
    Pairs(Vec<Implication>),
    /// These pairs, each with the largest difference of the counts.
    Differences(Counts, Vec<Measured>),
}

impl Told for Answer {
    ghost use Rattle.implications_command.specs.Telling.{implications_telling};

    ghost telling = { implications_telling };

    fn outcome(&self) -> Outcome {
        match self {
            Answer::NoPairs => Outcome::No,
            Answer::Pairs(_) => Outcome::Yes,
            Answer::Differences(_, _) => Outcome::Yes,
        }
    }

    fn text(&self, alloc: Global, names: &Names, _: Writing) -> Result<Vec<u8>, AllocError> {
        match self {
            Answer::NoPairs => Vec::from_slice(alloc, b"none\n"),
            Answer::Pairs(list) => pair_lines(alloc, names, list.as_slice()),
            Answer::Differences(counts, measured) => {
                difference_lines(alloc, names, counts, measured.as_slice())
            }
        }
    }

    fn push_members(
        &self,
        object: &mut Object,
        names: &Names,
        _: Writing,
    ) -> Result<(), AllocError> {
        match self {
            Answer::NoPairs => push_none(object),
            Answer::Pairs(list) => push_pairs(object, names, list.as_slice()),
            Answer::Differences(counts, measured) => {
                push_differences(object, names, counts, measured.as_slice())
            }
        }
    }
}
