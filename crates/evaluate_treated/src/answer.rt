//! What is answered over counts.

ghost use Rattle.evaluate_treated.specs.Lines.{effect_text};
ghost use Rattle.evaluate_treated.specs.Objects.{levels_members};

use crate::lines::{no_model_text, push_effect, values_text};
use crate::objects::{push_levels, push_no_model, push_values};
use answer_json::Object;
use count_table::Counts;
use evaluate_command::Values;
use mixed_graph::{Names, VSet};
use paired_values::{Axis, ShownAtCells};
use replies::Outcome;
use std::alloc::{AllocError, Global};
use told::{Told, Writing};
use treated_command::Asked;

/// What is answered over counts.
#[derive(Drop)]
pub enum Answer<'a> {
    /// The values.
    Values(AmongValues),
    /// No model of the diagram has the counts.
    NoModel(NoModel),
    /// x has more than two levels in the counts: what `treated` answers, by a path.
    Path(&'a treated_command::Answer),
}

/// The values of an effect among the treated at each level of x as it is set and as it was observed, of what is given and of y.
#[derive(Drop)]
pub struct AmongValues {
    pub asked: Asked,
    /// The members of x, each with its primed name.
    pub observed: Vec<Axis>,
    /// What is free in the formula beside x, y and what is given: it is at its first levels.
    pub pinned: VSet,
    pub counts: Counts,
    pub values: Values,
}

/// The first cell at which the joint effect is less than what of it was observed.
#[derive(Drop)]
pub struct NoModel {
    pub asked: Asked,
    /// The members of x, each with its primed name.
    pub observed: Vec<Axis>,
    /// What is free in the joint effect's formula beside x, y and what is given: it is at its first levels.
    pub pinned: VSet,
    pub counts: Counts,
    pub cell: Vec<u32>,
}

impl ShownAtCells for AmongValues {
    ghost treatment = { λ a. a.asked.sets.x.bits };

    ghost effect = { λ a names. effect_text names a.asked a.observed.items a.counts };

    ghost levels = { λ a names. levels_members names a.asked a.observed.items a.counts };

    fn treatment(&self) -> VSet {
        self.asked.sets.x
    }

    fn push_effect(
        &self,
        _: Global,
        out: &mut Vec<u8>,
        names: &Names,
        all: &Names,
        cell: &[u32],
    ) -> Result<(), AllocError> {
        push_effect(
            out,
            names,
            all,
            self.asked,
            self.observed.as_slice(),
            &self.counts,
            cell,
        )
    }

    fn push_levels(
        &self,
        object: &mut Object,
        names: &Names,
        all: &Names,
        cell: &[u32],
    ) -> Result<(), AllocError> {
        push_levels(
            object,
            names,
            all,
            self.asked,
            self.observed.as_slice(),
            &self.counts,
            cell,
        )
    }
}

impl<'a> Told for Answer<'a> {
    ghost use Rattle.evaluate_treated.specs.Telling.{among_telling};

    ghost telling = { among_telling };

    fn outcome(&self) -> Outcome {
        match self {
            Answer::Values(_) => Outcome::Yes,
            Answer::NoModel(_) => Outcome::No,
            Answer::Path(_) => Outcome::No,
        }
    }

    fn text(&self, alloc: Global, names: &Names, writing: Writing) -> Result<Vec<u8>, AllocError> {
        match self {
            Answer::Values(values) => values_text(alloc, names, values),
            Answer::NoModel(none) => no_model_text(alloc, names, none),
            Answer::Path(answer) => answer.text(alloc, names, writing),
        }
    }

    fn push_members(
        &self,
        object: &mut Object,
        names: &Names,
        writing: Writing,
    ) -> Result<(), AllocError> {
        match self {
            Answer::Values(values) => push_values(object, names, values),
            Answer::NoModel(none) => push_no_model(object, names, none),
            Answer::Path(answer) => answer.push_members(object, names, writing),
        }
    }
}
