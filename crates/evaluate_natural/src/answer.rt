//! The values of a nested effect.

use crate::lines::{push_effect, values_text};
use crate::objects::{push_all_levels, push_answer};
use answer_json::Object;
use count_table::Counts;
use evaluate_command::Values;
use mixed_graph::{Names, VSet};
use natural_command::Asked;
use paired_values::{Axis, ShownAtCells};
use replies::Outcome;
use std::alloc::{AllocError, Global};
use told::{Told, Writing};

/// The values of a nested effect at each first and each second level of x, at each level of what is given and of y, over counts.
#[derive(Drop)]
pub struct Answer {
    pub asked: Asked,
    /// The names at which x has its second levels.
    pub second: Vec<Axis>,
    /// What is free in the formula beside its sets, which is at its first levels.
    pub pinned: VSet,
    pub counts: Counts,
    pub values: Values,
}

impl Told for Answer {
    ghost use Rattle.evaluate_natural.specs.Telling.{nested_telling};

    ghost telling = { nested_telling };

    fn outcome(&self) -> Outcome {
        Outcome::Yes
    }

    fn text(&self, alloc: Global, names: &Names, _: Writing) -> Result<Vec<u8>, AllocError> {
        values_text(alloc, names, self)
    }

    fn push_members(
        &self,
        object: &mut Object,
        names: &Names,
        _: Writing,
    ) -> Result<(), AllocError> {
        push_answer(object, names, self)
    }
}

impl ShownAtCells for Answer {
    ghost use Rattle.evaluate_natural.specs.Lines.{effect_text};
    ghost use Rattle.evaluate_natural.specs.Objects.{levels_members};

    ghost treatment = { λ a. a.asked.question.x.bits };

    ghost effect = { λ a names. effect_text names a };

    ghost levels = { λ a names. levels_members names a };

    fn treatment(&self) -> VSet {
        self.asked.question.x
    }

    fn push_effect(
        &self,
        alloc: Global,
        out: &mut Vec<u8>,
        names: &Names,
        all: &Names,
        cell: &[u32],
    ) -> Result<(), AllocError> {
        push_effect(alloc, out, names, all, self, cell)
    }

    fn push_levels(
        &self,
        object: &mut Object,
        names: &Names,
        all: &Names,
        cell: &[u32],
    ) -> Result<(), AllocError> {
        push_all_levels(object, names, all, self, cell)
    }
}
