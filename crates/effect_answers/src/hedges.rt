//! A hedge with its two models.

ghost use Rattle.std.specs.Prelude.{◌≡◌, Some, IfOk, OnOk};
ghost use Rattle.effect_answers.specs.Hedges.{HasArrays};

use crate::effects::target_of;
use crate::objects::{push_joint_answer, push_pair, push_settled};
use answer_json::Object;
use certificate_json::{hedge_certificate_line, push_hedge_certificate};
use counter_models::CounterPair;
use hedge::Hedge;
use identify_text::{hedge_answer, joint_answer};
use mixed_graph::Names;
use prob_expr::Target;
use std::alloc::{AllocError, Global};
use targets::EffectSets;
use told::Writing;

/// A hedge for the effect of x on y, and two models that agree on all observations and differ on that effect.
#[derive(Drop)]
pub struct EffectHedge {
    pub sets: EffectSets,
    pub hedge: Hedge,
    pub pair: CounterPair,
}

impl EffectHedge {
    ghost use Rattle.answer_json.specs.Progress.{with_members};
    ghost use Rattle.prob_expr.specs.View.{target_view};
    ghost use Rattle.certificate_json.specs.Certificates.{certificate_line};
    ghost use Rattle.effect_answers.specs.Certificates.{member_of, member_in};
    ghost use Rattle.effect_answers.specs.HedgeTelling.{hedge_certificate, hedge_text, joint_text, pair_object, hedge_object, joint_object};

    /// That the effect isn't identifiable, with the hedge and its two models; or the hedge's certificate.
    pub fn text(
        &self,
        alloc: Global,
        names: &Names,
        writing: Writing,
    ) -> Result<Vec<u8>, AllocError>
        ensures { IfOk result (λ v. v.items ≡ hedge_text writing names.now self.now) }
    {
        if writing.is_certified() {
            return self.certificate_line(alloc, names);
        }
        let EffectSets { x, y } = self.sets;
        hedge_answer(alloc, x, y, &self.hedge, &self.pair, names)
    }

    /// The same where a target turns into the effect of x on y.
    pub fn joint_text(
        &self,
        alloc: Global,
        names: &Names,
        target: &Target,
        writing: Writing,
    ) -> Result<Vec<u8>, AllocError>
        ensures { IfOk result (λ v. v.items ≡ joint_text writing names.now (target_view target.now) self.now) }
    {
        if writing.is_certified() {
            return self.certificate_line(alloc, names);
        }
        let EffectSets { x, y } = self.sets;
        joint_answer(alloc, target, x, y, &self.hedge, &self.pair, names)
    }

    /// The certificate.
    pub fn certificate_line(&self, alloc: Global, names: &Names) -> Result<Vec<u8>, AllocError>
        ensures { IfOk result (λ v. v.items ≡ certificate_line names.now (hedge_certificate self.now)) }
    {
        let target = target_of(self.sets);
        hedge_certificate_line(alloc, names, &target, &self.hedge)
    }

    /// Adds the members of the object: what was asked for, the hedge and its two models, and the certificate, where that is asked for.
    pub fn push_members(
        &self,
        object: &mut Object,
        names: &Names,
        writing: Writing,
    ) -> Result<(), AllocError>
        ensures { OnOk result (object.new ≡ with_members (hedge_object writing names.now self.now) object.old) }
    {
        let target = target_of(self.sets);
        push_joint_answer(object, names, &target, self.sets)?;
        self.push_models(object, names, writing)
    }

    /// The same where a target turns into the effect of x on y, with whether it is settled that the two models differ on the target too.
    pub fn push_joint(
        &self,
        object: &mut Object,
        names: &Names,
        target: &Target,
        settled: bool,
        writing: Writing,
    ) -> Result<(), AllocError>
        ensures { OnOk result (object.new ≡ with_members (joint_object writing names.now (target_view target.now) settled self.now) object.old) }
    {
        push_joint_answer(object, names, target, self.sets)?;
        push_settled(object, settled)?;
        self.push_models(object, names, writing)
    }

    /// Adds the members of the hedge and its two models, and the certificate, where that is asked for.
    fn push_models(
        &self,
        object: &mut Object,
        names: &Names,
        writing: Writing,
    ) -> Result<(), AllocError>
        ensures { OnOk result (object.new ≡ with_members (pair_object writing names.now self.now) object.old) }
    {
        push_pair(object, names, &self.hedge, &self.pair)?;
        self.push_certificate(object, names, writing)
    }

    /// Adds the member of the certificate, where that is asked for.
    pub fn push_certificate(
        &self,
        object: &mut Object,
        names: &Names,
        writing: Writing,
    ) -> Result<(), AllocError>
        ensures { OnOk result (object.new ≡ with_members (member_in writing names.now (Some (hedge_certificate self.now))) object.old) }
    {
        if writing.is_certified() {
            return self.push_certified(object, names);
        }
        Ok(())
    }

    /// Adds the member of the certificate.
    fn push_certified(&self, object: &mut Object, names: &Names) -> Result<(), AllocError>
        ensures { OnOk result (object.new ≡ with_members (member_of names.now (Some (hedge_certificate self.now))) object.old) }
    {
        let target = target_of(self.sets);
        object.key("certificate")?;
        push_hedge_certificate(object, names, &target, &self.hedge)?;
        Ok(())
    }
}

/// Brings into a proof what the type alone keeps: the choice is an array of 64 entries, and the links are two.
pub fn has_arrays(hedge: &Hedge)
    ensures { HasArrays hedge.now }
{
    hedge.has_entries();
    let _ = hedge.choice.next[0];
}
