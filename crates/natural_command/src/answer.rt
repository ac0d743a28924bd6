//! What is answered of a nested effect.

use crate::another::{push_split_with, push_witness_with, split_with, witness_with};
use crate::asking::Question;
use crate::objects::{push_asked, push_excluded, push_formula_of};
use crate::texts::{excluded_text, formula_text};
use answer_json::Object;
use certificate::PartCertificate;
use certificate_json::part_certificate_line;
use counter_models::CounterPair;
use hedge::Hedge;
use interventional_id::Interventional;
use mixed_graph::{Names, VSet};
use natural_id::{NaturalFormula, Split, Witness};
use replies::Outcome;
use std::alloc::{AllocError, Global};
use told::{Told, Writing};

/// What is asked for: the sets, the primed names of x by their numbers, and whether directed paths lead from x to y through the mediators and
/// past them. Where none leads through them the indirect effect is nil, and where none leads past them the direct one.
#[derive(Clone, Copy)]
pub struct Asked {
    pub question: Question,
    pub primes: VSet,
    pub indirect: bool,
    pub direct: bool,
}

/// What is answered of a nested effect.
#[derive(Drop)]
pub enum Answer {
    /// A formula.
    Formula(Asked, NaturalFormula),
    /// The certificate of a formula, where one is asked for.
    Certified(Asked, PartCertificate),
    /// There is none: two models of a hedge for the joint effect on y and what is given show it.
    Excluded(Asked, Hedge, CounterPair),
    /// There is none, since a vertex reads both values of a treatment; the joint effect has a formula, and another effect may have one.
    Witness(Asked, Witness, Option<Interventional>),
    /// There is none, since a district reads both values of a treatment; the joint effect has a formula, and another effect may have one.
    Split(Asked, Split, Option<Interventional>),
}

impl Told for Answer {
    ghost use Rattle.natural_command.specs.Telling.{natural_telling};

    ghost telling = { natural_telling };

    fn outcome(&self) -> Outcome {
        match self {
            Answer::Formula(_, _) => Outcome::Yes,
            Answer::Certified(_, _) => Outcome::Yes,
            Answer::Excluded(_, _, _) => Outcome::No,
            Answer::Witness(_, _, _) => Outcome::No,
            Answer::Split(_, _, _) => Outcome::No,
        }
    }

    fn text(&self, alloc: Global, names: &Names, writing: Writing) -> Result<Vec<u8>, AllocError> {
        match self {
            Answer::Formula(asked, f) => formula_text(alloc, names, *asked, f, writing),
            Answer::Certified(_, c) => part_certificate_line(alloc, names, c),
            Answer::Excluded(asked, h, pair) => excluded_text(alloc, names, *asked, h, pair),
            Answer::Witness(asked, w, other) => witness_with(alloc, names, *asked, *w, other),
            Answer::Split(asked, s, other) => split_with(alloc, names, *asked, *s, other),
        }
    }

    fn push_members(
        &self,
        object: &mut Object,
        names: &Names,
        _: Writing,
    ) -> Result<(), AllocError> {
        match self {
            Answer::Formula(asked, f) => push_formula_of(object, names, *asked, f),
            Answer::Certified(asked, _) => push_asked(object, "certificate", names, *asked),
            Answer::Excluded(asked, h, pair) => push_excluded(object, names, *asked, h, pair),
            Answer::Witness(asked, w, other) => push_witness_with(object, names, *asked, *w, other),
            Answer::Split(asked, s, other) => push_split_with(object, names, *asked, *s, other),
        }
    }
}
