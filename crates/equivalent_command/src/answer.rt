//! What is answered of two graphs.

use crate::objects::{push_asked, push_different, push_paths};
use crate::texts::{collider_text, connected_text, edge_text, separated_text};
use answer_json::Object;
use m_separation::OpenPath;
use markov_equivalence::Difference;
use mixed_graph::Names;
use replies::Outcome;
use std::alloc::{AllocError, Global};
use targets::Sets;
use told::{Told, Writing};

/// What is answered of two graphs.
#[derive(Drop)]
pub enum Answer {
    /// They imply the same separations.
    Alike,
    /// The same, and these sets are separated in both.
    Separated(Sets),
    /// The same, and a path between these sets is open in each; both paths have the same ends.
    Connected(Sets, OpenPath, OpenPath),
    /// An edge that one of them has alone.
    Edge(Difference),
    /// An unshielded collider that one of them has alone, and its middle.
    Collider(Difference, u8),
}

impl Told for Answer {
    ghost use Rattle.equivalent_command.specs.Telling.{equivalent_telling};

    ghost telling = { equivalent_telling };

    fn outcome(&self) -> Outcome {
        match self {
            Answer::Alike => Outcome::Yes,
            Answer::Separated(_) => Outcome::Yes,
            Answer::Connected(_, _, _) => Outcome::Yes,
            Answer::Edge(_) => Outcome::No,
            Answer::Collider(_, _) => Outcome::No,
        }
    }

    fn text(&self, alloc: Global, names: &Names, _: Writing) -> Result<Vec<u8>, AllocError> {
        match self {
            Answer::Alike => Vec::from_slice(alloc, b"equivalent\n"),
            Answer::Separated(sets) => separated_text(alloc, names, *sets),
            Answer::Connected(_, first, second) => connected_text(alloc, names, first, second),
            Answer::Edge(d) => edge_text(alloc, names, *d),
            Answer::Collider(d, m) => collider_text(alloc, names, *d, *m),
        }
    }

    fn push_members(
        &self,
        object: &mut Object,
        names: &Names,
        _: Writing,
    ) -> Result<(), AllocError> {
        match self {
            Answer::Alike => object.word_at("answer", "equivalent"),
            Answer::Separated(sets) => push_asked(object, names, *sets, true),
            Answer::Connected(sets, first, second) => {
                push_asked(object, names, *sets, false)?;
                push_paths(object, names, first, second)
            }
            Answer::Edge(d) => push_different(object, "edge", names, &[d.a, d.b], *d),
            Answer::Collider(d, m) => {
                push_different(object, "collider", names, &[d.a, *m, d.b], *d)
            }
        }
    }
}
