//! The interventional effect, told behind an answer without a formula.

ghost use Rattle.std.specs.Prelude.{◌≡◌, ◌++◌, codes, IfOk, OnOk};
ghost use Rattle.answer_text.specs.declared.signs.Notation.TheVariants as notations;
ghost use Rattle.prob_expr.specs.Vocabulary.{formula_view, target_view};
ghost use Rattle.answer_json.specs.Vocabulary.{with_members, with_value};
ghost use Rattle.natural_command.specs.Sentences.{operand_in, witness_text, split_text};
ghost use Rattle.natural_command.specs.Objects.{witness_members, split_members};
ghost use Rattle.natural_command.specs.Another.{second_names, mediators_of, outcome_of, summed_product, interventional_text, product_text, equation_text, has_lines, factor_lines, both_lines, another_lines, factor_members, factor_json, mediators_json, outcome_json, interventional_members, interventional_json, another_members};

use crate::answer::Asked;
use crate::objects::{push_split, push_witness};
use crate::second::names_read;
use crate::texts::{is_defined, push_operand, push_summed, split_text, witness_text};
use answer_json::Object;
use answer_text::{Notation, Sign, push_sign};
use effect_answers::objects::push_formula;
use expr_text::target_text;
use identify_text::{answer_in, free_beside};
use interventional_id::Interventional;
use mixed_graph::{Names, VSet};
use natural_id::{Split, Witness};
use prob_expr::{Formula, Target};
use std::alloc::{AllocError, Global};

/// The names by which the effect on the mediators is read: x at its second names.
fn second_names(alloc: Global, names: &Names, asked: Asked) -> Result<Names, AllocError>
    ensures { IfOk result (λ all. all ≡ second_names names.now asked) }
{
    names_read(alloc, names, asked.question.x, asked.question.x)
}

/// The effect of x on the mediators.
fn mediators_of(asked: Asked) -> Target
    ensures { target_view result ≡ mediators_of asked }
{
    Target {
        x: asked.question.x,
        y: asked.question.through,
        given: asked.question.given,
    }
}

/// The effect of x and the mediators on y.
fn outcome_of(asked: Asked) -> Target
    ensures { target_view result ≡ outcome_of asked }
{
    Target {
        x: asked.question.x.union(asked.question.through),
        y: asked.question.y,
        given: asked.question.given,
    }
}

// ---- the text

/// Appends a text of each of the two effects as a product, summed over the mediators.
fn push_product(
    out: &mut Vec<u8>,
    names: &Names,
    asked: Asked,
    mediators: &[u8],
    outcome: &[u8],
) -> Result<(), AllocError>
    ensures { OnOk result (out.new.items ≡ out.old.items ++ summed_product names.now asked mediators.now outcome.now) }
{
    push_summed(out, Notation::Plain, names, asked.question.through)?;
    out.extend_from_slice(mediators)?;
    push_sign(out, Notation::Plain, Sign::Times)?;
    out.extend_from_slice(outcome)?;
    Ok(())
}

/// The interventional effect as text.
fn interventional_text(alloc: Global, names: &Names, asked: Asked) -> Result<Vec<u8>, AllocError>
    ensures { IfOk result (λ v. v.items ≡ interventional_text names.now asked) }
{
    let second = second_names(alloc, names, asked)?;
    let mediators = target_text(alloc, &mediators_of(asked), &second)?;
    let outcome = target_text(alloc, &outcome_of(asked), names)?;
    let mut text = Vec::new(alloc);
    push_product(
        &mut text,
        names,
        asked,
        mediators.as_slice(),
        outcome.as_slice(),
    )?;
    Ok(text)
}

/// The formula of an effect as a factor.
fn operand_text(
    alloc: Global,
    names: &Names,
    effect: &Target,
    f: &Formula,
) -> Result<Vec<u8>, AllocError>
    ensures { IfOk result (λ v. v.items ≡ operand_in notations.Plain names.now (target_view effect.now) (formula_view f.now)) }
{
    let mut text = Vec::new(alloc);
    push_operand(alloc, &mut text, Notation::Plain, names, effect, f)?;
    Ok(text)
}

/// The formula of the interventional effect as text.
fn product_text(
    alloc: Global,
    names: &Names,
    asked: Asked,
    i: &Interventional,
) -> Result<Vec<u8>, AllocError>
    ensures { IfOk result (λ v. v.items ≡ product_text names.now asked i.now) }
{
    let second = second_names(alloc, names, asked)?;
    let mediators = operand_text(alloc, &second, &mediators_of(asked), &i.mediators)?;
    let outcome = operand_text(alloc, names, &outcome_of(asked), &i.outcome)?;
    let mut text = Vec::new(alloc);
    push_product(
        &mut text,
        names,
        asked,
        mediators.as_slice(),
        outcome.as_slice(),
    )?;
    Ok(text)
}

/// Whether a formula stands on lines of its own too: it has definitions, or reads something beside the sets of its effect.
fn has_lines(alloc: Global, effect: &Target, f: &Formula) -> Result<bool, AllocError>
    ensures { IfOk result (λ b. b ≡ has_lines (target_view effect.now) (formula_view f.now)) }
{
    if is_defined(f) {
        return Ok(true);
    }
    let free = free_beside(alloc, f, effect)?;
    Ok(!free.is_empty())
}

/// Appends the lines of a formula, where it has some.
fn push_factor_lines(
    alloc: Global,
    out: &mut Vec<u8>,
    names: &Names,
    effect: &Target,
    f: &Formula,
) -> Result<(), AllocError>
    ensures { OnOk result (out.new.items ≡ out.old.items ++ factor_lines names.now (target_view effect.now) (formula_view f.now)) }
{
    if !has_lines(alloc, effect, f)? {
        return Ok(());
    }
    let lines = answer_in(alloc, Notation::Plain, f, effect, names)?;
    out.extend_from_slice(lines.as_slice())?;
    Ok(())
}

/// Appends the lines of both formulas.
fn push_both_lines(
    alloc: Global,
    out: &mut Vec<u8>,
    names: &Names,
    asked: Asked,
    i: &Interventional,
) -> Result<(), AllocError>
    ensures { OnOk result (out.new.items ≡ out.old.items ++ both_lines names.now asked i.now) }
{
    let second = second_names(alloc, names, asked)?;
    push_factor_lines(alloc, out, &second, &mediators_of(asked), &i.mediators)?;
    push_factor_lines(alloc, out, names, &outcome_of(asked), &i.outcome)
}

/// Appends the interventional effect, an equals sign and its formula.
fn push_equation(
    alloc: Global,
    out: &mut Vec<u8>,
    names: &Names,
    asked: Asked,
    i: &Interventional,
) -> Result<(), AllocError>
    ensures { OnOk result (out.new.items ≡ out.old.items ++ equation_text names.now asked i.now) }
{
    let effect = interventional_text(alloc, names, asked)?;
    let product = product_text(alloc, names, asked, i)?;
    out.extend_from_slice(effect.as_slice())?;
    out.extend_from_slice(b" = ")?;
    out.extend_from_slice(product.as_slice())?;
    Ok(())
}

/// Appends that this is another effect, with its formula, where it has one.
fn push_another(
    alloc: Global,
    out: &mut Vec<u8>,
    names: &Names,
    asked: Asked,
    other: &Option<Interventional>,
) -> Result<(), AllocError>
    ensures { OnOk result (out.new.items ≡ out.old.items ++ another_lines names.now asked other.now) }
{
    let Some(i) = other else {
        return Ok(());
    };
    out.extend_from_slice(b"another effect, the interventional one: ")?;
    push_equation(alloc, out, names, asked, i)?;
    out.extend_from_slice(b"\n")?;
    push_both_lines(alloc, out, names, asked, i)?;
    Ok(())
}

/// That there is no formula, which vertex reads both values of a treatment, and another effect that has one.
pub fn witness_with(
    alloc: Global,
    names: &Names,
    asked: Asked,
    w: Witness,
    other: &Option<Interventional>,
) -> Result<Vec<u8>, AllocError>
    ensures { IfOk result (λ v. v.items ≡ witness_text names.now asked w ++ another_lines names.now asked other.now) }
{
    let mut text = witness_text(alloc, names, asked, w)?;
    push_another(alloc, &mut text, names, asked, other)?;
    Ok(text)
}

/// That there is no formula, which district reads both values of a treatment, and another effect that has one.
pub fn split_with(
    alloc: Global,
    names: &Names,
    asked: Asked,
    s: Split,
    other: &Option<Interventional>,
) -> Result<Vec<u8>, AllocError>
    ensures { IfOk result (λ v. v.items ≡ split_text names.now asked s ++ another_lines names.now asked other.now) }
{
    let mut text = split_text(alloc, names, asked, s)?;
    push_another(alloc, &mut text, names, asked, other)?;
    Ok(text)
}

// ---- the object

/// The members of one of the two effects: the names by which it reads x, and its formula.
fn push_factor_members(
    object: &mut Object,
    read: &Names,
    x: VSet,
    effect: &Target,
    f: &Formula,
) -> Result<(), AllocError>
    ensures { OnOk result (object.new ≡ with_members (factor_members read.now x.bits (target_view effect.now) (formula_view f.now)) object.old) }
{
    object.set_at("reads", read, x)?;
    push_formula(object, read, effect, f)
}

/// The object of one of the two effects.
fn push_factor(
    object: &mut Object,
    read: &Names,
    x: VSet,
    effect: &Target,
    f: &Formula,
) -> Result<(), AllocError>
    ensures { OnOk result (object.new ≡ with_value (factor_json read.now x.bits (target_view effect.now) (formula_view f.now)) object.old) }
{
    object.begin_object()?;
    push_factor_members(object, read, x, effect, f)?;
    object.end_object()?;
    Ok(())
}

/// The object of the effect on the mediators.
fn push_mediators(
    object: &mut Object,
    names: &Names,
    asked: Asked,
    i: &Interventional,
) -> Result<(), AllocError>
    ensures { OnOk result (object.new ≡ with_value (mediators_json names.now asked i.now) object.old) }
{
    let second = second_names(object.alloc(), names, asked)?;
    let effect = mediators_of(asked);
    push_factor(object, &second, asked.question.x, &effect, &i.mediators)
}

/// The object of the effect on y.
fn push_outcome(
    object: &mut Object,
    names: &Names,
    asked: Asked,
    i: &Interventional,
) -> Result<(), AllocError>
    ensures { OnOk result (object.new ≡ with_value (outcome_json names.now asked i.now) object.old) }
{
    let effect = outcome_of(asked);
    push_factor(object, names, asked.question.x, &effect, &i.outcome)
}

/// The members of the interventional effect: it and its formula as text, and both effects.
fn push_effects(
    object: &mut Object,
    names: &Names,
    asked: Asked,
    i: &Interventional,
) -> Result<(), AllocError>
    ensures { OnOk result (object.new ≡ with_members (interventional_members names.now asked i.now) object.old) }
{
    let effect = interventional_text(object.alloc(), names, asked)?;
    object.text_at("effect", effect.as_slice())?;
    let product = product_text(object.alloc(), names, asked, i)?;
    object.text_at("formula", product.as_slice())?;
    object.key("mediators")?;
    push_mediators(object, names, asked, i)?;
    object.key("outcome")?;
    push_outcome(object, names, asked, i)
}

/// The object of the interventional effect.
fn push_interventional(
    object: &mut Object,
    names: &Names,
    asked: Asked,
    i: &Interventional,
) -> Result<(), AllocError>
    ensures { OnOk result (object.new ≡ with_value (interventional_json names.now asked i.now) object.old) }
{
    object.begin_object()?;
    push_effects(object, names, asked, i)?;
    object.end_object()?;
    Ok(())
}

/// The member of the interventional effect, where it has a formula.
fn push_another_member(
    object: &mut Object,
    names: &Names,
    asked: Asked,
    other: &Option<Interventional>,
) -> Result<(), AllocError>
    ensures { OnOk result (object.new ≡ with_members (another_members names.now asked other.now) object.old) }
{
    let Some(i) = other else {
        return Ok(());
    };
    object.key("interventional")?;
    push_interventional(object, names, asked, i)
}

/// The members where a vertex reads both values of a treatment, and that of another effect.
pub fn push_witness_with(
    object: &mut Object,
    names: &Names,
    asked: Asked,
    w: Witness,
    other: &Option<Interventional>,
) -> Result<(), AllocError>
    ensures { OnOk result (object.new ≡ with_members (witness_members names.now asked w ++ another_members names.now asked other.now) object.old) }
{
    push_witness(object, names, asked, w)?;
    push_another_member(object, names, asked, other)
}

/// The members where a district reads both values of a treatment, and that of another effect.
pub fn push_split_with(
    object: &mut Object,
    names: &Names,
    asked: Asked,
    s: Split,
    other: &Option<Interventional>,
) -> Result<(), AllocError>
    ensures { OnOk result (object.new ≡ with_members (split_members names.now asked s ++ another_members names.now asked other.now) object.old) }
{
    push_split(object, names, asked, s)?;
    push_another_member(object, names, asked, other)
}
