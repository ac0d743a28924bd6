//! The members of a formula's certificate.

ghost use Rattle.std.specs.Prelude.{◌≡◌, true, codes, map, OnOk};
ghost use Rattle.prob_expr.specs.View.{view};
ghost use Rattle.prob_expr.specs.Vocabulary.{formula_view};
ghost use Rattle.do_derivation.specs.Vocabulary.{lemma_view, step_view, derivation_view};
ghost use Rattle.certificate_json.specs.StepSizes.{is_short};
ghost use Rattle.answer_json.specs.Vocabulary.{with_value, with_values, with_member, with_members, array_of};
ghost use Rattle.certificate_json.specs.Kept.{are_steps_short, IsShort};
ghost use Rattle.certificate_json.specs.Certificates.{expr_json, lemma_json, formula_members, derivation_members};

use crate::steps::push_step;
use answer_json::Object;
use do_derivation::{Derivation, Lemma};
use expr_text::write_expr;
use mixed_graph::Names;
use prob_expr::{Expr, Formula};
use std::alloc::AllocError;

/// The text of an expression.
pub fn push_expr(object: &mut Object, names: &Names, e: &Expr) -> Result<(), AllocError>
    ensures { OnOk result (object.new ≡ with_value (expr_json names.now (view e.now)) object.old) }
{
    let text = write_expr(object.alloc(), e, names)?;
    object.text(text.as_slice())
}

/// The texts of expressions one after another.
fn push_exprs(object: &mut Object, names: &Names, list: &Vec<Expr>) -> Result<(), AllocError>
    ensures { OnOk result (object.new ≡ with_values (map (expr_json names.now) (map view list.now.items)) object.old) }
{
    for e in list {
        push_expr(object, names, e)?;
    }
    Ok(())
}

/// A member whose value is a list of expressions, each as its text.
#[tactic(auto, using(answer_json::proofs::Arrays::array_written))]
pub fn push_exprs_at(
    object: &mut Object,
    names: &Names,
    name: &str,
    list: &Vec<Expr>,
) -> Result<(), AllocError>
    ensures { OnOk result (object.new ≡ with_member name.now (array_of (map (expr_json names.now) (map view list.now.items))) object.old) }
{
    object.key(name)?;
    object.begin_array()?;
    push_exprs(object, names, list)?;
    object.end_array()?;
    Ok(())
}

/// The members of a formula: its definitions, and its main expression.
pub fn push_formula(object: &mut Object, names: &Names, f: &Formula) -> Result<(), AllocError>
    ensures { OnOk result (object.new ≡ with_members (formula_members names.now (formula_view f.now)) object.old) }
{
    push_exprs_at(object, names, "defs", &f.defs)?;
    object.key("formula")?;
    push_expr(object, names, &f.main)?;
    Ok(())
}

/// A lemma: its set and its step.
fn push_lemma(object: &mut Object, names: &Names, lemma: &Lemma) -> Result<(), AllocError>
    ensures written { OnOk result (object.new ≡ with_value (lemma_json names.now (lemma_view lemma.now)) object.old) }
    ensures short { OnOk result (is_short (step_view lemma.now.step) ≡ true) }
{
    object.begin_array()?;
    object.set(names, lemma.set)?;
    push_step(object, names, &lemma.step)?;
    object.end_array()?;
    Ok(())
}

/// Lemmas one after another.
fn push_lemmas(object: &mut Object, names: &Names, list: &Vec<Lemma>) -> Result<(), AllocError>
    ensures written { OnOk result (object.new ≡ with_values (map (lemma_json names.now) (map lemma_view list.now.items)) object.old) }
    ensures short { OnOk result (are_steps_short (map lemma_view list.now.items) ≡ true) }
{
    for lemma in list {
        push_lemma(object, names, lemma)?;
    }
    Ok(())
}

/// The member of the lemmas.
#[tactic(auto, using(answer_json::proofs::Arrays::array_written))]
fn push_lemmas_at(object: &mut Object, names: &Names, list: &Vec<Lemma>) -> Result<(), AllocError>
    ensures written { OnOk result (object.new ≡ with_member (codes "lemmas") (array_of (map (lemma_json names.now) (map lemma_view list.now.items))) object.old) }
    ensures short { OnOk result (are_steps_short (map lemma_view list.now.items) ≡ true) }
{
    object.key("lemmas")?;
    object.begin_array()?;
    push_lemmas(object, names, list)?;
    object.end_array()?;
    Ok(())
}

/// The members of a derivation: its lemmas, and its main step.
pub fn push_derivation(
    object: &mut Object,
    names: &Names,
    derivation: &Derivation,
) -> Result<(), AllocError>
    ensures written { OnOk result (object.new ≡ with_members (derivation_members names.now (derivation_view derivation.now)) object.old) }
    ensures short { OnOk result (IsShort (derivation_view derivation.now)) }
{
    push_lemmas_at(object, names, &derivation.lemmas)?;
    object.key("main")?;
    push_step(object, names, &derivation.main)?;
    Ok(())
}
