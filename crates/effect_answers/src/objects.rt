//! The objects of answers to the effect of x on y.

ghost use Rattle.std.specs.Prelude.{◌≡◌, ◌++◌, codes, map, IfOk, OnOk};
ghost use Rattle.json.specs.Json.{boolean};
ghost use Rattle.prob_expr.specs.View.{view};
ghost use Rattle.prob_expr.specs.Vocabulary.{formula_view, target_view};
ghost use Rattle.identify_text.specs.Vocabulary.{free_beside};
ghost use Rattle.certificate_json.specs.Vocabulary.{expr_json};
ghost use Rattle.answer_json.specs.Vocabulary.{with_member, with_members, array_of, text_json, set_json};
ghost use Rattle.effect_answers.specs.Objects.{target_members, effect_json, joint_json, equation_latex, formula_members, joint_members, hedge_members};

use answer_json::Object;
use answer_text::Notation;
use certificate_json::{push_expr, push_exprs_at};
use counter_models::CounterPair;
use expr_text::{push_formula_in, target_in, target_text};
use formula_json::{push_definitions, push_main};
use hedge::Hedge;
use hedge_json::{push_hedge, push_models};
use identify_text::free_beside;
use mixed_graph::{Names, VSet};
use prob_expr::{Formula, Target};
use std::alloc::{AllocError, Global};
use targets::EffectSets;

/// The members of a target's sets.
pub fn push_target(object: &mut Object, names: &Names, target: &Target) -> Result<(), AllocError>
    ensures { OnOk result (object.new ≡ with_members (target_members names.now (target_view target.now)) object.old) }
{
    object.set_at("y", names, target.y)?;
    object.set_at("x", names, target.x)?;
    object.set_at("given", names, target.given)?;
    Ok(())
}

/// The member of a target's term as text.
pub fn push_effect(object: &mut Object, names: &Names, target: &Target) -> Result<(), AllocError>
    ensures { OnOk result (object.new ≡ with_member (codes "effect") (effect_json names.now (target_view target.now)) object.old) }
{
    let text = target_text(object.alloc(), target, names)?;
    object.text_at("effect", text.as_slice())
}

// ---- a formula

/// The member of a formula's main expression as text.
fn push_main_text(object: &mut Object, names: &Names, f: &Formula) -> Result<(), AllocError>
    ensures { OnOk result (object.new ≡ with_member (codes "formula") (expr_json names.now (view f.now.main)) object.old) }
{
    object.key("formula")?;
    push_expr(object, names, &f.main)
}

/// The member of a formula's definitions as texts.
fn push_definition_texts(object: &mut Object, names: &Names, f: &Formula) -> Result<(), AllocError>
    ensures { OnOk result (object.new ≡ with_member (codes "definitions") (array_of (map (expr_json names.now) (map view f.now.defs.items))) object.old) }
{
    push_exprs_at(object, names, "definitions", &f.defs)
}

/// The member of what is free in a formula beside the target's sets.
fn push_free(
    object: &mut Object,
    names: &Names,
    target: &Target,
    f: &Formula,
) -> Result<(), AllocError>
    ensures { OnOk result (object.new ≡ with_member (codes "free") (set_json names.now (free_beside (target_view target.now) (formula_view f.now))) object.old) }
{
    let free = free_beside(object.alloc(), f, target)?;
    object.set_at("free", names, free)
}

/// A target, an equals sign and its formula in LaTeX.
fn equation_latex(
    alloc: Global,
    names: &Names,
    target: &Target,
    f: &Formula,
) -> Result<Vec<u8>, AllocError>
    ensures { IfOk result (λ v. v.items ≡ equation_latex names.now (target_view target.now) (formula_view f.now)) }
{
    let mut text = target_in(alloc, Notation::Latex, target, names)?;
    text.extend_from_slice(b" = ")?;
    push_formula_in(alloc, &mut text, Notation::Latex, f, names)?;
    Ok(text)
}

/// The member of a target and its formula in LaTeX.
fn push_latex(
    object: &mut Object,
    names: &Names,
    target: &Target,
    f: &Formula,
) -> Result<(), AllocError>
    ensures { OnOk result (object.new ≡ with_member (codes "latex") (text_json (equation_latex names.now (target_view target.now) (formula_view f.now))) object.old) }
{
    let text = equation_latex(object.alloc(), names, target, f)?;
    object.text_at("latex", text.as_slice())
}

/// The members of a formula for a target: as text, with what is free in it beside the target's sets, in LaTeX, and as trees.
pub fn push_formula(
    object: &mut Object,
    names: &Names,
    target: &Target,
    f: &Formula,
) -> Result<(), AllocError>
    ensures { OnOk result (object.new ≡ with_members (formula_members names.now (target_view target.now) (formula_view f.now)) object.old) }
{
    push_effect(object, names, target)?;
    push_main_text(object, names, f)?;
    push_definition_texts(object, names, f)?;
    push_free(object, names, target, f)?;
    push_latex(object, names, target, f)?;
    object.key("tree")?;
    push_main(object, names, f)?;
    object.key("definition_trees")?;
    push_definitions(object, names, f)?;
    Ok(())
}

// ---- a hedge

/// The member of the joint effect of x on y.
fn push_joint(object: &mut Object, names: &Names, sets: EffectSets) -> Result<(), AllocError>
    ensures { OnOk result (object.new ≡ with_member (codes "joint") (joint_json names.now sets.x.bits sets.y.bits) object.old) }
{
    object.key("joint")?;
    object.begin_object()?;
    object.set_at("y", names, sets.y)?;
    object.set_at("x", names, sets.x)?;
    object.end_object()?;
    Ok(())
}

/// Adds the members of a hedge up to the effect of x on y that it is of, into which a target turns.
pub fn push_joint_answer(
    object: &mut Object,
    names: &Names,
    target: &Target,
    sets: EffectSets,
) -> Result<(), AllocError>
    ensures { OnOk result (object.new ≡ with_members (joint_members names.now (target_view target.now) sets.x.bits sets.y.bits) object.old) }
{
    object.word_at("answer", "hedge")?;
    push_target(object, names, target)?;
    push_effect(object, names, target)?;
    push_joint(object, names, sets)
}

/// Adds the member that says whether it is settled that the two models differ on the target too.
pub fn push_settled(object: &mut Object, settled: bool) -> Result<(), AllocError>
    ensures { OnOk result (object.new ≡ with_member (codes "settled") (boolean settled) object.old) }
{
    object.key("settled")?;
    object.boolean(settled)
}

/// Adds the members of a hedge and its two models.
pub fn push_pair(
    object: &mut Object,
    names: &Names,
    hedge: &Hedge,
    pair: &CounterPair,
) -> Result<(), AllocError>
    ensures { OnOk result (object.new ≡ with_members (hedge_members names.now hedge.now pair.now) object.old) }
{
    object.key("hedge")?;
    push_hedge(object, names, hedge)?;
    object.key("models")?;
    push_models(object, names, pair)?;
    Ok(())
}
