//! The parts of what is told.

ghost use Rattle.std.specs.Prelude.{◌≡◌, ◌++◌, IfOk, OnOk};
ghost use Rattle.prob_expr.specs.Vocabulary.{masks_of, effect_on, formula_view, target_view};
ghost use Rattle.answer_json.specs.Vocabulary.{with_members};
ghost use Rattle.surrogate_command.specs.Lines.{unfound_line, district_line, stop_answer, common_answer};
ghost use Rattle.surrogate_command.specs.Objects.{asked_members, formula_answer, stop_members, common_members};

use crate::sets::SurrogateSets;
use answer_json::Object;
use answer_text::push_set;
use counter_models::CounterPair;
use effect_answers::objects::{push_effect, push_formula, push_target};
use experiment_lists::unidentifiable_text;
use hedge::Hedge;
use hedge_json::{push_hedge, push_models as push_models_value};
use identify_text::{effect_text, push_hedge_sets, push_models};
use mixed_graph::{Names, VSet};
use prob_expr::{Formula, Target};
use std::alloc::{AllocError, Global};

/// The effect of the sets.
pub fn effect_of(sets: &SurrogateSets) -> Target
    ensures { target_view result ≡ effect_on sets.now.x.bits sets.now.y.bits }
{
    Target {
        x: sets.x,
        y: sets.y,
        given: VSet::EMPTY,
    }
}

// ---- texts

/// The line that no formula is found.
fn unfound(alloc: Global, names: &Names, x: VSet, y: VSet) -> Result<Vec<u8>, AllocError>
    ensures { IfOk result (λ v. v.items ≡ unfound_line names.now x.bits y.bits) }
{
    let mut text = effect_text(alloc, x, y, names)?;
    text.extend_from_slice(b" has no formula found from these experiments\n")?;
    Ok(text)
}

/// Appends the line of a district.
fn push_district(out: &mut Vec<u8>, names: &Names, district: VSet) -> Result<(), AllocError>
    ensures { OnOk result (out.new.items ≡ out.old.items ++ district_line names.now district.bits) }
{
    out.extend_from_slice(b"district ")?;
    push_set(out, names, district)?;
    out.push(b'\n')?;
    Ok(())
}

/// The text of a stop: that no formula is found, the district, and the hedge's sets.
///
/// Each line ends with a line feed.
pub fn stop_answer(
    alloc: Global,
    x: VSet,
    y: VSet,
    district: VSet,
    h: &Hedge,
    names: &Names,
) -> Result<Vec<u8>, AllocError>
    ensures { IfOk result (λ v. v.items ≡ stop_answer names.now x.bits y.bits district.bits h.now) }
{
    let mut text = unfound(alloc, names, x, y)?;
    push_district(&mut text, names, district)?;
    push_hedge_sets(&mut text, names, h)?;
    Ok(text)
}

/// The text of a common hedge: that no formula equals the effect, the district, the hedge, and its two models.
///
/// Each line ends with a line feed.
pub fn common_answer(
    alloc: Global,
    sets: &SurrogateSets,
    district: VSet,
    hedge: &Hedge,
    pair: &CounterPair,
    names: &Names,
) -> Result<Vec<u8>, AllocError>
    ensures { IfOk result (λ v. v.items ≡ common_answer names.now sets.now.x.bits sets.now.y.bits district.bits hedge.now pair.now) }
{
    let mut text = unidentifiable_text(alloc, names, sets.x, sets.y)?;
    push_district(&mut text, names, district)?;
    push_hedge_sets(&mut text, names, hedge)?;
    push_models(alloc, &mut text, names, hedge, pair)?;
    Ok(text)
}

// ---- members

/// Adds the members of what was asked for: the target's sets, and the experiments.
fn push_asked(
    object: &mut Object,
    names: &Names,
    target: &Target,
    experiments: &[VSet],
) -> Result<(), AllocError>
    ensures { OnOk result (object.new ≡ with_members (asked_members names.now (masks_of experiments.now) (target_view target.now)) object.old) }
{
    push_target(object, names, target)?;
    object.key("experiments")?;
    object.sets(names, experiments)?;
    Ok(())
}

/// Adds the members of a formula for a target over experiments.
pub fn push_formula_answer(
    object: &mut Object,
    names: &Names,
    target: &Target,
    experiments: &[VSet],
    f: &Formula,
) -> Result<(), AllocError>
    ensures { OnOk result (object.new ≡ with_members (formula_answer names.now (masks_of experiments.now) (target_view target.now) (formula_view f.now)) object.old) }
{
    object.word_at("answer", "formula")?;
    push_asked(object, names, target, experiments)?;
    push_formula(object, names, target, f)
}

/// Adds the members of a stop up to its hedge.
pub fn push_stop(
    object: &mut Object,
    names: &Names,
    answer: &str,
    target: &Target,
    experiments: &[VSet],
    district: VSet,
    hedge: &Hedge,
) -> Result<(), AllocError>
    ensures { OnOk result (object.new ≡ with_members (stop_members answer.now names.now (masks_of experiments.now) (target_view target.now) district.bits hedge.now) object.old) }
{
    object.word_at("answer", answer)?;
    push_asked(object, names, target, experiments)?;
    push_effect(object, names, target)?;
    object.set_at("district", names, district)?;
    object.key("hedge")?;
    push_hedge(object, names, hedge)?;
    Ok(())
}

/// Adds the members of a common hedge, with its two models.
pub fn push_common(
    object: &mut Object,
    names: &Names,
    target: &Target,
    experiments: &[VSet],
    district: VSet,
    hedge: &Hedge,
    pair: &CounterPair,
) -> Result<(), AllocError>
    ensures { OnOk result (object.new ≡ with_members (common_members names.now (masks_of experiments.now) (target_view target.now) district.bits hedge.now pair.now) object.old) }
{
    push_stop(object, names, "hedge", target, experiments, district, hedge)?;
    object.key("models")?;
    push_models_value(object, names, pair)?;
    Ok(())
}
