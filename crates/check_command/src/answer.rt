//! What is answered of a certificate.

use crate::lines::{accepted_formula_text, accepted_hedge_text, derivation_text, hedge_text};
use crate::objects::{push_accepted_formula, push_accepted_hedge};
use answer_json::Object;
use check_json::{push_met_hedge, push_refused_derivation, push_refused_hedge};
use do_derivation::CheckFault;
use effect_answers::EffectFormula;
use hedge::{Hedge, HedgeFault};
use mixed_graph::Names;
use replies::Outcome;
use std::alloc::{AllocError, Global};
use targets::EffectSets;
use told::{Told, Writing};

/// What is answered of a certificate.
#[derive(Drop)]
pub enum Answer {
    /// Its formula is accepted by its derivation.
    AcceptedFormula(EffectFormula),
    /// Its derivation, which has so many lemmas, is refused by this first fault.
    RefusedDerivation(usize, CheckFault),
    /// Its hedge is accepted for the effect of x on y, where there are experiments or none.
    AcceptedHedge {
        sets: EffectSets,
        hedge: Hedge,
        over_experiments: bool,
    },
    /// Its hedge is refused by this first fault.
    RefusedHedge(HedgeFault),
    /// Its hedge is met by an experiment, which sets a member of the larger set and none of the smaller one.
    MetHedge,
}

impl Told for Answer {
    ghost use Rattle.check_command.specs.Telling.{check_telling};

    ghost telling = { check_telling };

    fn outcome(&self) -> Outcome {
        match self {
            Answer::AcceptedFormula(_) => Outcome::Yes,
            Answer::RefusedDerivation(_, _) => Outcome::No,
            Answer::AcceptedHedge { .. } => Outcome::Yes,
            Answer::RefusedHedge(_) => Outcome::No,
            Answer::MetHedge => Outcome::No,
        }
    }

    fn text(&self, alloc: Global, names: &Names, _: Writing) -> Result<Vec<u8>, AllocError> {
        match self {
            Answer::AcceptedFormula(formula) => accepted_formula_text(alloc, names, formula),
            Answer::RefusedDerivation(lemmas, fault) => {
                derivation_text(alloc, names, *lemmas, fault)
            }
            Answer::AcceptedHedge {
                sets,
                hedge,
                over_experiments,
            } => accepted_hedge_text(alloc, names, *sets, hedge, *over_experiments),
            Answer::RefusedHedge(fault) => hedge_text(alloc, names, *fault),
            Answer::MetHedge => Vec::from_slice(alloc, b"refused: hedge fault 7\n"),
        }
    }

    fn push_members(
        &self,
        object: &mut Object,
        names: &Names,
        _: Writing,
    ) -> Result<(), AllocError> {
        match self {
            Answer::AcceptedFormula(formula) => push_accepted_formula(object, names, formula),
            Answer::RefusedDerivation(lemmas, fault) => {
                push_refused_derivation(object, names, *lemmas, fault)
            }
            Answer::AcceptedHedge { sets, hedge, .. } => {
                push_accepted_hedge(object, names, *sets, hedge)
            }
            Answer::RefusedHedge(fault) => push_refused_hedge(object, names, *fault),
            Answer::MetHedge => push_met_hedge(object),
        }
    }
}
