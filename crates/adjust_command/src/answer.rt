//! What is answered of sets that may be adjusted for.

use crate::objects::{push_admissible, push_listing, push_not_admissible};
use crate::set_lines::listing_text;
use crate::texts::{admissible_text, not_admissible_text};
use adjustment::AdjFault;
use answer_json::Object;
use mixed_graph::{Names, VSet};
use replies::Outcome;
use std::alloc::{AllocError, Global};
use targets::Sets;
use told::{Told, Writing};

/// What is answered of sets that may be adjusted for.
#[derive(Drop)]
pub enum Answer {
    /// The third set may be adjusted for: its formula is the effect of the first on the second.
    Admissible(Sets),
    /// It may not, by the criterion that is asked about: this breaks it.
    NotAdmissible(Sets, AdjFault),
    /// The minimal sets that may be adjusted for, and whether there are more.
    Listed(Sets, Vec<VSet>, bool),
    /// No set may be adjusted for.
    NoSet(Sets),
}

impl Told for Answer {
    ghost use Rattle.adjust_command.specs.Telling.{adjust_telling};

    ghost telling = { adjust_telling };

    fn outcome(&self) -> Outcome {
        match self {
            Answer::Admissible(_) => Outcome::Yes,
            Answer::NotAdmissible(_, _) => Outcome::No,
            Answer::Listed(_, _, _) => Outcome::Yes,
            Answer::NoSet(_) => Outcome::No,
        }
    }

    fn text(&self, alloc: Global, names: &Names, _: Writing) -> Result<Vec<u8>, AllocError> {
        match self {
            Answer::Admissible(sets) => admissible_text(alloc, names, *sets),
            Answer::NotAdmissible(sets, fault) => {
                not_admissible_text(alloc, names, sets.given, fault)
            }
            Answer::Listed(_, sets, more) => listing_text(alloc, names, sets.as_slice(), *more),
            Answer::NoSet(_) => Vec::from_slice(alloc, b"none\n"),
        }
    }

    fn push_members(
        &self,
        object: &mut Object,
        names: &Names,
        _: Writing,
    ) -> Result<(), AllocError> {
        match self {
            Answer::Admissible(sets) => push_admissible(object, names, *sets),
            Answer::NotAdmissible(sets, fault) => push_not_admissible(object, names, *sets, fault),
            Answer::Listed(asked, sets, more) => {
                push_listing(object, "sets", names, *asked, sets.as_slice(), *more)
            }
            Answer::NoSet(asked) => push_listing(object, "none", names, *asked, &[], false),
        }
    }
}
