//! A formula for a target.

ghost use Rattle.std.specs.Prelude.{◌≡◌, Some, IfOk, OnOk};

use crate::objects::{push_formula, push_target};
use answer_json::Object;
use certificate_json::{formula_certificate_line, push_formula_certificate};
use do_derivation::Derivation;
use identify_text::answer_in;
use mixed_graph::Names;
use prob_expr::{Formula, Target};
use std::alloc::{AllocError, Global};
use told::Writing;

/// A formula for a target.
#[derive(Drop)]
pub struct EffectFormula {
    pub target: Target,
    pub formula: Formula,
    /// The steps that turn the target into the formula, where these are wanted.
    pub derivation: Option<Derivation>,
}

impl EffectFormula {
    ghost use Rattle.answer_json.specs.Progress.{with_members};
    ghost use Rattle.effect_answers.specs.Certificates.{line_or, member_of, member_in};
    ghost use Rattle.effect_answers.specs.FormulaTelling.{formula_certificate, formula_line, formula_text, formula_object};

    /// The target, an equals sign and the formula; or the certificate, where that is asked for and the derivation is there.
    pub fn text(
        &self,
        alloc: Global,
        names: &Names,
        writing: Writing,
    ) -> Result<Vec<u8>, AllocError>
        ensures { IfOk result (λ v. v.items ≡ formula_text writing names.now self.now) }
    {
        if writing.is_certified() {
            return self.certificate_or_line(alloc, names, writing);
        }
        self.line(alloc, names, writing)
    }

    /// The target, an equals sign and the formula.
    fn line(&self, alloc: Global, names: &Names, writing: Writing) -> Result<Vec<u8>, AllocError>
        ensures { IfOk result (λ v. v.items ≡ formula_line writing names.now self.now) }
    {
        answer_in(
            alloc,
            writing.notation(),
            &self.formula,
            &self.target,
            names,
        )
    }

    /// The certificate, where the derivation is there; else that line.
    fn certificate_or_line(
        &self,
        alloc: Global,
        names: &Names,
        writing: Writing,
    ) -> Result<Vec<u8>, AllocError>
        ensures { IfOk result (λ v. v.items ≡ line_or names.now (formula_certificate self.now) (formula_line writing names.now self.now)) }
    {
        match &self.derivation {
            Some(derivation) => {
                formula_certificate_line(alloc, names, &self.target, &self.formula, derivation)
            }
            None => self.line(alloc, names, writing),
        }
    }

    /// Adds the members of the object: the answer's word, the target and the formula, and the certificate, where that is asked for.
    pub fn push_members(
        &self,
        object: &mut Object,
        names: &Names,
        writing: Writing,
    ) -> Result<(), AllocError>
        ensures { OnOk result (object.new ≡ with_members (formula_object writing names.now self.now) object.old) }
    {
        object.word_at("answer", "formula")?;
        push_target(object, names, &self.target)?;
        push_formula(object, names, &self.target, &self.formula)?;
        self.push_certificate(object, names, writing)
    }

    /// Adds the member of the certificate, where that is asked for.
    pub fn push_certificate(
        &self,
        object: &mut Object,
        names: &Names,
        writing: Writing,
    ) -> Result<(), AllocError>
        ensures { OnOk result (object.new ≡ with_members (member_in writing names.now (formula_certificate self.now)) object.old) }
    {
        if writing.is_certified() {
            return self.push_derived(object, names);
        }
        Ok(())
    }

    /// Adds the member of the certificate, where the derivation is there.
    fn push_derived(&self, object: &mut Object, names: &Names) -> Result<(), AllocError>
        ensures { OnOk result (object.new ≡ with_members (member_of names.now (formula_certificate self.now)) object.old) }
    {
        match &self.derivation {
            Some(derivation) => {
                object.key("certificate")?;
                push_formula_certificate(object, names, &self.target, &self.formula, derivation)?;
                Ok(())
            }
            None => Ok(()),
        }
    }
}
