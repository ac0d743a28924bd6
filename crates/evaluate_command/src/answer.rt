//! What is answered of an effect.

use crate::lines::values_text;
use crate::objects::push_effect_values;
use adjust_command::Answer as SetAnswer;
use adjustment::AdjFault;
use answer_json::Object;
use count_table::Counts;
use effect_answers::EffectHedge;
use implications::Implication;
use mixed_graph::{Names, VSet};
use prob_expr::Target;
use quantity::{Bounds, Exact, Quantity};
use replies::Outcome;
use std::alloc::{AllocError, Global};
use targets::Sets;
use told::{Told, Writing};

/// What is answered of an effect.
#[derive(Drop)]
pub enum Answer {
    /// Its values over counts.
    Values(EffectValues),
    /// It has no formula: a hedge for it.
    Hedge(EffectHedge),
    /// It has no formula under its condition: a hedge for the effect of x on y into which it turns. Where `settled`, the two models of the
    /// hedge differ on the target too.
    Joint {
        target: Target,
        settled: bool,
        hedge: EffectHedge,
    },
    /// The third set may not be adjusted for, by the criterion that is asked about: this breaks it.
    NotAdmissible(Sets, AdjFault),
}

/// The values of an effect at each level of x, of what is given and of y, over counts.
#[derive(Drop)]
pub struct EffectValues {
    pub target: Target,
    /// What is free in the formula beside the target's sets, which is at its first levels.
    pub pinned: VSet,
    pub counts: Counts,
    pub values: Values,
    /// The pair by which no model has the counts: none where it isn't asked for.
    pub broken: Option<Implication>,
}

/// Cells with the quantities there, in one of two kinds.
#[derive(Drop)]
pub enum Values {
    Exact(Vec<Valued<Exact>>),
    Bounds(Vec<Valued<Bounds>>),
}

/// A cell with the quantity there.
#[derive(Drop)]
pub struct Valued<Q: Quantity> {
    pub cell: Vec<u32>,
    pub quantity: Q,
}

impl Told for Answer {
    ghost use Rattle.evaluate_command.specs.Telling.{evaluate_telling};

    ghost telling = { evaluate_telling };

    fn outcome(&self) -> Outcome {
        match self {
            Answer::Values(_) => Outcome::Yes,
            Answer::Hedge(_) | Answer::Joint { .. } | Answer::NotAdmissible(_, _) => Outcome::No,
        }
    }

    fn text(&self, alloc: Global, names: &Names, writing: Writing) -> Result<Vec<u8>, AllocError> {
        match self {
            Answer::Values(values) => values_text(alloc, names, values),
            Answer::Hedge(hedge) => hedge.text(alloc, names, writing),
            Answer::Joint { target, hedge, .. } => {
                hedge.joint_text(alloc, names, target, writing)
            }
            Answer::NotAdmissible(sets, fault) => {
                SetAnswer::NotAdmissible(*sets, *fault).text(alloc, names, writing)
            }
        }
    }

    fn push_members(
        &self,
        object: &mut Object,
        names: &Names,
        writing: Writing,
    ) -> Result<(), AllocError> {
        match self {
            Answer::Values(values) => push_effect_values(object, names, values),
            Answer::Hedge(hedge) => hedge.push_members(object, names, writing),
            Answer::Joint {
                target,
                settled,
                hedge,
            } => hedge.push_joint(object, names, target, *settled, writing),
            Answer::NotAdmissible(sets, fault) => {
                SetAnswer::NotAdmissible(*sets, *fault).push_members(object, names, writing)
            }
        }
    }
}
