//! What is answered of a certificate, of one in parts too.

use crate::objects::{push_natural, push_refused_natural, push_refused_treated, push_treated};
use crate::texts::{natural_text, refused_natural_text, refused_treated_text, treated_text};
use answer_json::Object;
use mixed_graph::Names;
use natural_id::NaturalFormula;
use part_checks::{NaturalPartsFault, TreatedFormula, TreatedPartsFault};
use replies::Outcome;
use std::alloc::{AllocError, Global};
use told::{Told, Writing};

/// What is answered of a certificate.
#[derive(Drop)]
pub enum Answer {
    /// What `check_command` answers of one of a formula or of a hedge.
    Whole(check_command::Answer),
    /// These parts are accepted, and make up this effect among the treated.
    Treated(treated_command::Asked, TreatedFormula),
    /// These parts are accepted, and make up this nested effect.
    Natural(natural_command::Asked, NaturalFormula),
    /// The parts of an effect among the treated are refused by this first fault; the derivation at fault, if one is, has so many lemmas.
    RefusedTreated(TreatedPartsFault, usize),
    /// The same of those of a nested effect.
    RefusedNatural(NaturalPartsFault, usize),
}

impl Told for Answer {
    ghost use Rattle.part_check_command.specs.Telling.{part_check_telling};

    ghost telling = { part_check_telling };

    fn outcome(&self) -> Outcome {
        match self {
            Answer::Whole(answer) => answer.outcome(),
            Answer::Treated(_, _) => Outcome::Yes,
            Answer::Natural(_, _) => Outcome::Yes,
            Answer::RefusedTreated(_, _) => Outcome::No,
            Answer::RefusedNatural(_, _) => Outcome::No,
        }
    }

    fn text(&self, alloc: Global, names: &Names, writing: Writing) -> Result<Vec<u8>, AllocError> {
        match self {
            Answer::Whole(answer) => answer.text(alloc, names, writing),
            Answer::Treated(asked, f) => treated_text(alloc, names, *asked, f),
            Answer::Natural(asked, f) => natural_text(alloc, names, *asked, f),
            Answer::RefusedTreated(fault, lemmas) => {
                refused_treated_text(alloc, names, *lemmas, *fault)
            }
            Answer::RefusedNatural(fault, lemmas) => {
                refused_natural_text(alloc, names, *lemmas, *fault)
            }
        }
    }

    fn push_members(
        &self,
        object: &mut Object,
        names: &Names,
        writing: Writing,
    ) -> Result<(), AllocError> {
        match self {
            Answer::Whole(answer) => answer.push_members(object, names, writing),
            Answer::Treated(asked, f) => push_treated(object, names, *asked, f),
            Answer::Natural(asked, f) => push_natural(object, names, *asked, f),
            Answer::RefusedTreated(fault, lemmas) => {
                push_refused_treated(object, names, *lemmas, *fault)
            }
            Answer::RefusedNatural(fault, lemmas) => {
                push_refused_natural(object, names, *lemmas, *fault)
            }
        }
    }
}
