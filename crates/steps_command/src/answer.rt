//! What is answered of a certificate whose derivation is to be explained.

use crate::objects::push_explained;
use crate::texts::parts_text;
use answer_json::Object;
use derivation_steps::Part;
use effect_answers::EffectFormula;
use mixed_graph::Names;
use replies::Outcome;
use std::alloc::{AllocError, Global};
use told::{Told, Writing};

/// What is answered of a certificate.
#[derive(Drop)]
pub enum Answer {
    /// Its formula is accepted, and these are the parts of its derivation, those of its lemmas and then the main one.
    Explained(EffectFormula, Vec<Part>),
    /// What `check` answers of any other.
    Checked(check_command::Answer),
}

impl Told for Answer {
    ghost use Rattle.steps_command.specs.Telling.{steps_telling};

    ghost telling = { steps_telling };

    fn outcome(&self) -> Outcome {
        match self {
            Answer::Explained(_, _) => Outcome::Yes,
            Answer::Checked(answer) => answer.outcome(),
        }
    }

    fn text(&self, alloc: Global, names: &Names, writing: Writing) -> Result<Vec<u8>, AllocError> {
        match self {
            Answer::Explained(_, parts) => parts_text(alloc, names, parts),
            Answer::Checked(answer) => answer.text(alloc, names, writing),
        }
    }

    fn push_members(
        &self,
        object: &mut Object,
        names: &Names,
        writing: Writing,
    ) -> Result<(), AllocError> {
        match self {
            Answer::Explained(formula, parts) => push_explained(object, names, formula, parts),
            Answer::Checked(answer) => answer.push_members(object, names, writing),
        }
    }
}
