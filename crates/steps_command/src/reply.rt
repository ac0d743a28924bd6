//! The answer of `steps`.

ghost use Rattle.std.specs.Prelude.{◌≡◌, ◌≤◌, ◌<◌, ℕ, false, List, IfOk, IfErr, length};
ghost use Rattle.mixed_graph.specs.Vocabulary.{MixedGraph, graph_of};
ghost use Rattle.prob_expr.specs.Vocabulary.{masks_of};
ghost use Rattle.replies.specs.Vocabulary.{told_of};
ghost use Rattle.told.specs.declared.form.Form.{Form as AskedForm};
ghost use Rattle.told.specs.Vocabulary.{plain_form, Tells};
ghost use Rattle.check_command.specs.Vocabulary.{certificate_refusal, is_memory, IsCertificateFault};
ghost use Rattle.steps_command.specs.Right.{IsDerivable, IsExplained, IsForSteps, IsForCertificate};
ghost use Rattle.steps_command.specs.Telling.{steps_telling};

use crate::answer::Answer;
use check_command::{Answer as CheckAnswer, CertificateFault, check_answer};
use dag_reader::ReadGraph;
use derivation_steps::{Part, explain};
use diagram::Diagram;
use effect_answers::EffectFormula;
use mixed_graph::VSet;
use replies::{Format, Reply};
use std::alloc::{AllocError, Global};
use told::{Form, Refuses, reply};

/// What is told of the bytes of a certificate, with experiments on these sets.
pub fn steps_reply(
    alloc: Global,
    diagram: &Diagram,
    experiments: &Vec<VSet>,
    certificate: &[u8],
    format: Format,
) -> Result<Reply, AllocError>
    requires { length certificate.now ≤ 67108864 }
    ensures { let seen = diagram.now.observed in IfOk result (λ r. Tells steps_telling certificate_refusal
        (IsForCertificate (graph_of seen.graph) seen.names (masks_of experiments.now.items) certificate.now) (plain_form format) seen.names r.outcome (told_of r)) }
{
    let answer = steps_answer(alloc, &diagram.observed, experiments, certificate);
    reply(alloc, Form::plain(format), &diagram.observed.names, &answer)
}

/// What is told of a certificate of more than 67,108,864 bytes.
pub fn long_certificate(alloc: Global) -> Result<Reply, AllocError>
    ensures { IfOk result (λ r. (form : AskedForm) (q : MixedGraph) (names : List (List ℕ)) (zs certificate : List ℕ) → 67108864 < length certificate
        → Tells steps_telling certificate_refusal (IsForCertificate q names zs certificate) form names r.outcome (told_of r)) }
{
    CertificateFault::TooLong.refuse(alloc)
}

/// What `check` answers of a certificate in an observed graph, and where that accepts a formula, its derivation move by move.
pub fn steps_answer(
    alloc: Global,
    seen: &ReadGraph,
    experiments: &Vec<VSet>,
    certificate: &[u8],
) -> Result<Answer, CertificateFault>
    requires { length certificate.now ≤ 67108864 }
    ensures answer { IfOk result (IsForSteps (graph_of seen.now.graph) seen.now.names (masks_of experiments.now.items) certificate.now) }
    ensures fault { IfErr result (λ fault. is_memory fault ≡ false → IsCertificateFault seen.now.names certificate.now fault) }
{
    match check_answer(alloc, seen, experiments, certificate)? {
        CheckAnswer::AcceptedFormula(formula) => {
            let parts = parts_of(alloc, seen, &formula)?;
            Ok(Answer::Explained(formula, parts))
        }
        other => Ok(Answer::Checked(other)),
    }
}

/// The parts of the derivation by which a formula is accepted.
fn parts_of(
    alloc: Global,
    seen: &ReadGraph,
    formula: &EffectFormula,
) -> Result<Vec<Part>, AllocError>
    requires { IsDerivable (graph_of seen.now.graph) formula.now }
    ensures { IfOk result (λ v. IsExplained (graph_of seen.now.graph) formula.now v.items) }
{
    match &formula.derivation {
        Some(derivation) => explain(alloc, &seen.graph, &formula.target, derivation),
        None => unreachable!(),
    }
}
