//! What is answered of an effect, under a condition or not.

use answer_json::Object;
use effect_answers::{EffectFormula, EffectHedge};
use mixed_graph::Names;
use prob_expr::Target;
use replies::Outcome;
use std::alloc::{AllocError, Global};
use told::{Told, Writing};

/// What is answered of an effect, under a condition or not.
#[derive(Drop)]
pub enum Answer {
    /// A formula for it.
    Formula(EffectFormula),
    /// A hedge for the effect of x on y.
    Hedge(EffectHedge),
    /// A hedge for the effect of x on y into which a target turns under its condition. Where `settled`, no observation is left, or those
    /// that are left have an effect that is known: then the two models of the hedge differ on the target too.
    Joint {
        target: Target,
        settled: bool,
        hedge: EffectHedge,
    },
}

impl Told for Answer {
    ghost use Rattle.identify_command.specs.Telling.{identify_telling};

    ghost telling = { identify_telling };

    fn outcome(&self) -> Outcome {
        match self {
            Answer::Formula(_) => Outcome::Yes,
            Answer::Hedge(_) | Answer::Joint { .. } => Outcome::No,
        }
    }

    fn text(&self, alloc: Global, names: &Names, writing: Writing) -> Result<Vec<u8>, AllocError> {
        match self {
            Answer::Formula(formula) => formula.text(alloc, names, writing),
            Answer::Hedge(hedge) => hedge.text(alloc, names, writing),
            Answer::Joint { target, hedge, .. } => {
                hedge.joint_text(alloc, names, target, writing)
            }
        }
    }

    fn push_members(
        &self,
        object: &mut Object,
        names: &Names,
        writing: Writing,
    ) -> Result<(), AllocError> {
        match self {
            Answer::Formula(formula) => formula.push_members(object, names, writing),
            Answer::Hedge(hedge) => hedge.push_members(object, names, writing),
            Answer::Joint {
                target,
                settled,
                hedge,
            } => hedge.push_joint(object, names, target, *settled, writing),
        }
    }
}
