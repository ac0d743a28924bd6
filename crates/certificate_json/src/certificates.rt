//! A whole certificate.

ghost use Rattle.std.specs.Prelude.{◌≡◌, length, Ok, IfOk, OnOk};
ghost use Rattle.mixed_graph.specs.Vocabulary.{AreNames};
ghost use Rattle.prob_expr.specs.Vocabulary.{formula_view, target_view};
ghost use Rattle.do_derivation.specs.Vocabulary.{derivation_view};
ghost use Rattle.certificate.specs.Vocabulary.{certificate_view, hedge_view, formula as formula_case, hedge as hedge_case, certificate_in};
ghost use Rattle.answer_json.specs.Vocabulary.{with_value, with_members};
ghost use Rattle.certificate_json.specs.Kept.{IsRepresentable};
ghost use Rattle.certificate_json.specs.Writable.{IsWritable, IsShallow};
ghost use Rattle.certificate_json.specs.Certificates.{version_of, given_members, target_members, certificate_members, certificate_json, certificate_text, certificate_line};

use crate::formulas::{push_derivation, push_formula};
use crate::hedges::push_hedge;
use answer_json::Object;
use certificate::Certificate;
use do_derivation::Derivation;
use hedge::Hedge;
use mixed_graph::{Names, VSet};
use prob_expr::{Formula, Target};
use std::alloc::{AllocError, Global};

/// The version: 1 where nothing is given, else 2.
fn version_of(given: VSet) -> u64
    ensures { result ≡ version_of given.bits }
{
    if given.is_empty() { 1 } else { 2 }
}

/// The member of what is given, where something is.
fn push_given(object: &mut Object, names: &Names, given: VSet) -> Result<(), AllocError>
    ensures { OnOk result (object.new ≡ with_members (given_members names.now given.bits) object.old) }
{
    if given.is_empty() {
        return Ok(());
    }
    object.set_at("given", names, given)
}

/// The members of every certificate from `version` on.
fn push_target(object: &mut Object, names: &Names, target: &Target) -> Result<(), AllocError>
    ensures { OnOk result (object.new ≡ with_members (target_members names.now (target_view target.now)) object.old) }
{
    object.number_at("version", version_of(target.given))?;
    object.set_at("x", names, target.x)?;
    object.set_at("y", names, target.y)?;
    Ok(())
}

/// The members of a formula's certificate.
fn push_formula_members(
    object: &mut Object,
    names: &Names,
    target: &Target,
    formula: &Formula,
    derivation: &Derivation,
) -> Result<(), AllocError>
    ensures written { OnOk result (object.new ≡ with_members (certificate_members names.now (formula_case (target_view target.now) (formula_view formula.now) (derivation_view derivation.now))) object.old) }
    ensures kept { OnOk result (IsRepresentable (formula_case (target_view target.now) (formula_view formula.now) (derivation_view derivation.now))) }
{
    object.word_at("answer", "formula")?;
    push_formula(object, names, formula)?;
    push_given(object, names, target.given)?;
    push_derivation(object, names, derivation)?;
    push_target(object, names, target)?;
    Ok(())
}

/// The members of a hedge's certificate.
fn push_hedge_members(
    object: &mut Object,
    names: &Names,
    target: &Target,
    hedge: &Hedge,
) -> Result<(), AllocError>
    ensures written { OnOk result (object.new ≡ with_members (certificate_members names.now (hedge_case (target_view target.now) (hedge_view hedge.now))) object.old) }
    ensures kept { OnOk result (IsRepresentable (hedge_case (target_view target.now) (hedge_view hedge.now))) }
{
    object.word_at("answer", "hedge")?;
    push_hedge(object, names, hedge)?;
    push_target(object, names, target)?;
    Ok(())
}

/// The certificate of a formula as a value.
#[tactic(auto, using(crate::proofs::Members::object_written))]
pub fn push_formula_certificate(
    object: &mut Object,
    names: &Names,
    target: &Target,
    formula: &Formula,
    derivation: &Derivation,
) -> Result<(), AllocError>
    ensures written { OnOk result (object.new ≡ with_value (certificate_json names.now (formula_case (target_view target.now) (formula_view formula.now) (derivation_view derivation.now))) object.old) }
    ensures kept { OnOk result (IsRepresentable (formula_case (target_view target.now) (formula_view formula.now) (derivation_view derivation.now))) }
{
    object.begin_object()?;
    push_formula_members(object, names, target, formula, derivation)?;
    object.end_object()?;
    Ok(())
}

/// The certificate of a hedge as a value.
#[tactic(auto, using(crate::proofs::Members::object_written))]
pub fn push_hedge_certificate(
    object: &mut Object,
    names: &Names,
    target: &Target,
    hedge: &Hedge,
) -> Result<(), AllocError>
    ensures written { OnOk result (object.new ≡ with_value (certificate_json names.now (hedge_case (target_view target.now) (hedge_view hedge.now))) object.old) }
    ensures kept { OnOk result (IsRepresentable (hedge_case (target_view target.now) (hedge_view hedge.now))) }
{
    object.begin_object()?;
    push_hedge_members(object, names, target, hedge)?;
    object.end_object()?;
    Ok(())
}

/// What is known of names: they differ, and each has the form of a name.
pub(crate) fn known(names: &Names)
    ensures { AreNames names.now }
{
    names.count();
}

/// The certificate of a formula as a line.
///
/// It is read again, unless steps, or parentheses and sums of an expression, nest more than 60 deep.
pub fn formula_certificate_line(
    alloc: Global,
    names: &Names,
    target: &Target,
    formula: &Formula,
    derivation: &Derivation,
) -> Result<Vec<u8>, AllocError>
    ensures written { IfOk result (λ v. v.items ≡ certificate_line names.now (formula_case (target_view target.now) (formula_view formula.now) (derivation_view derivation.now))) }
    ensures kept { IfOk result (λ v. IsRepresentable (formula_case (target_view target.now) (formula_view formula.now) (derivation_view derivation.now))) }
    ensures reads_back { let c = formula_case (target_view target.now) (formula_view formula.now) (derivation_view derivation.now) in IsWritable (length names.now) c → IsShallow c → IfOk result (λ v. certificate_in names.now (certificate_text names.now c) ≡ Ok c) }
{
    known(names);
    let mut object = Object::new(alloc)?;
    push_formula_members(&mut object, names, target, formula, derivation)?;
    object.line()
}

/// The certificate of a hedge as a line.
pub fn hedge_certificate_line(
    alloc: Global,
    names: &Names,
    target: &Target,
    hedge: &Hedge,
) -> Result<Vec<u8>, AllocError>
    ensures written { IfOk result (λ v. v.items ≡ certificate_line names.now (hedge_case (target_view target.now) (hedge_view hedge.now))) }
    ensures kept { IfOk result (λ v. IsRepresentable (hedge_case (target_view target.now) (hedge_view hedge.now))) }
    ensures reads_back { let c = hedge_case (target_view target.now) (hedge_view hedge.now) in IsWritable (length names.now) c → IsShallow c → IfOk result (λ v. certificate_in names.now (certificate_text names.now c) ≡ Ok c) }
{
    known(names);
    let mut object = Object::new(alloc)?;
    push_hedge_members(&mut object, names, target, hedge)?;
    object.line()
}

/// A certificate as a line.
pub fn certificate_line(
    alloc: Global,
    names: &Names,
    c: &Certificate,
) -> Result<Vec<u8>, AllocError>
    ensures written { IfOk result (λ v. v.items ≡ certificate_line names.now (certificate_view c.now)) }
    ensures reads_back { IsWritable (length names.now) (certificate_view c.now) → IsShallow (certificate_view c.now) → IfOk result (λ v. certificate_in names.now (certificate_text names.now (certificate_view c.now)) ≡ Ok (certificate_view c.now)) }
{
    match c {
        Certificate::Formula(target, formula, derivation) => {
            formula_certificate_line(alloc, names, target, formula, derivation)
        }
        Certificate::Hedge(target, hedge) => hedge_certificate_line(alloc, names, target, hedge),
    }
}

/// A certificate as a value.
pub fn push_certificate(
    object: &mut Object,
    names: &Names,
    c: &Certificate,
) -> Result<(), AllocError>
    ensures written { OnOk result (object.new ≡ with_value (certificate_json names.now (certificate_view c.now)) object.old) }
    ensures kept { OnOk result (IsRepresentable (certificate_view c.now)) }
{
    match c {
        Certificate::Formula(target, formula, derivation) => {
            push_formula_certificate(object, names, target, formula, derivation)
        }
        Certificate::Hedge(target, hedge) => push_hedge_certificate(object, names, target, hedge),
    }
}
