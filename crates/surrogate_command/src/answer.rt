//! What is answered of an effect over experiments.

ghost use Rattle.std.specs.Prelude.{◌≡◌, Some, IfOk, OnOk};
ghost use Rattle.prob_expr.specs.Vocabulary.{masks_of, effect_on};
ghost use Rattle.answer_json.specs.Vocabulary.{with_members};
ghost use Rattle.surrogate_command.specs.Parts.{blocked_text, found_object, unfound_object, blocked_object};

use crate::parts::{
    common_answer, effect_of, push_common, push_formula_answer, push_stop, stop_answer,
};
use crate::sets::SurrogateSets;
use answer_json::Object;
use effect_answers::{EffectFormula, EffectHedge};
use hedge::Hedge;
use mixed_graph::{Names, VSet};
use replies::Outcome;
use std::alloc::{AllocError, Global};
use told::{Told, Writing};

/// What is answered of the effect of x on y over experiments.
#[derive(Drop)]
pub enum Answer {
    /// A formula for it.
    Formula(SurrogateSets, EffectFormula),
    /// No formula is found: the first district that no experiment frees, with its hedge without experiment.
    Unfound(SurrogateSets, VSet, Hedge),
    /// There is no formula: that district, with the hedge at which it stops under all experiments that leave it alone at once.
    Blocked(SurrogateSets, VSet, EffectHedge),
}

impl Told for Answer {
    ghost use Rattle.surrogate_command.specs.Telling.{surrogate_telling};

    ghost telling = { surrogate_telling };

    fn outcome(&self) -> Outcome {
        match self {
            Answer::Formula(_, _) => Outcome::Yes,
            Answer::Unfound(_, _, _) | Answer::Blocked(_, _, _) => Outcome::No,
        }
    }

    fn text(&self, alloc: Global, names: &Names, writing: Writing) -> Result<Vec<u8>, AllocError> {
        match self {
            Answer::Formula(_, formula) => formula.text(alloc, names, writing),
            Answer::Unfound(sets, district, hedge) => {
                stop_answer(alloc, sets.x, sets.y, *district, hedge, names)
            }
            Answer::Blocked(sets, district, hedge) => {
                blocked_text(alloc, names, sets, *district, hedge, writing)
            }
        }
    }

    fn push_members(
        &self,
        object: &mut Object,
        names: &Names,
        writing: Writing,
    ) -> Result<(), AllocError> {
        match self {
            Answer::Formula(sets, formula) => push_found(object, names, sets, formula, writing),
            Answer::Unfound(sets, district, hedge) => {
                push_unfound(object, names, sets, *district, hedge)
            }
            Answer::Blocked(sets, district, hedge) => {
                push_blocked(object, names, sets, *district, hedge, writing)
            }
        }
    }
}

/// A common hedge with its two models, or its certificate.
fn blocked_text(
    alloc: Global,
    names: &Names,
    sets: &SurrogateSets,
    district: VSet,
    hedge: &EffectHedge,
    writing: Writing,
) -> Result<Vec<u8>, AllocError>
    ensures { IfOk result (λ v. v.items ≡ blocked_text writing names.now sets.now.x.bits sets.now.y.bits district.bits hedge.now) }
{
    if writing.is_certified() {
        return hedge.certificate_line(alloc, names);
    }
    common_answer(alloc, sets, district, &hedge.hedge, &hedge.pair, names)
}

/// Adds the members of a formula over experiments.
fn push_found(
    object: &mut Object,
    names: &Names,
    sets: &SurrogateSets,
    formula: &EffectFormula,
    writing: Writing,
) -> Result<(), AllocError>
    ensures { OnOk result (object.new ≡ with_members (found_object writing names.now (masks_of sets.now.experiments.items) formula.now) object.old) }
{
    let experiments = sets.experiments.as_slice();
    push_formula_answer(
        object,
        names,
        &formula.target,
        experiments,
        &formula.formula,
    )?;
    formula.push_certificate(object, names, writing)
}

/// Adds the members of a stop.
fn push_unfound(
    object: &mut Object,
    names: &Names,
    sets: &SurrogateSets,
    district: VSet,
    hedge: &Hedge,
) -> Result<(), AllocError>
    ensures { OnOk result (object.new ≡ with_members (unfound_object names.now (masks_of sets.now.experiments.items) (effect_on sets.now.x.bits sets.now.y.bits) district.bits hedge.now) object.old) }
{
    let target = effect_of(sets);
    let experiments = sets.experiments.as_slice();
    push_stop(
        object,
        names,
        "not found",
        &target,
        experiments,
        district,
        hedge,
    )
}

/// Adds the members of a common hedge.
fn push_blocked(
    object: &mut Object,
    names: &Names,
    sets: &SurrogateSets,
    district: VSet,
    hedge: &EffectHedge,
    writing: Writing,
) -> Result<(), AllocError>
    ensures { OnOk result (object.new ≡ with_members (blocked_object writing names.now (masks_of sets.now.experiments.items) (effect_on sets.now.x.bits sets.now.y.bits) district.bits hedge.now) object.old) }
{
    let target = effect_of(sets);
    let experiments = sets.experiments.as_slice();
    push_common(
        object,
        names,
        &target,
        experiments,
        district,
        &hedge.hedge,
        &hedge.pair,
    )?;
    hedge.push_certificate(object, names, writing)
}
