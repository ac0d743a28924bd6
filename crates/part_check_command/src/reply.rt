//! The answer of `check`, of certificates in parts too.

ghost use Rattle.std.specs.Prelude.{◌≡◌, ◌≤◌, ◌<◌, ℕ, List, IfOk, IfErr, length};
ghost use Rattle.mixed_graph.specs.Vocabulary.{MixedGraph, graph_of};
ghost use Rattle.prob_expr.specs.Vocabulary.{masks_of};
ghost use Rattle.replies.specs.Vocabulary.{told_of};
ghost use Rattle.told.specs.declared.form.Form.{Form as AskedForm};
ghost use Rattle.told.specs.Vocabulary.{plain_form, Tells};
ghost use Rattle.part_check_command.specs.Decisions.{IsOfOtherVersion, IsUnreadWhole, UnlessWanting, is_of_other_version, is_version};
ghost use Rattle.part_check_command.specs.Faults.{part_check_refusal};
ghost use Rattle.part_check_command.specs.Right.{IsFault, IsForText, IsForCertificate};
ghost use Rattle.part_check_command.specs.Telling.{part_check_telling};

use crate::answer::Answer;
use crate::fault::Fault;
use crate::nested::decide_nested;
use crate::treated::decide_treated;
use certificate::{CertFault, PartCertificate, read_part_answer};
use check_command::CertificateFault;
use dag_reader::ReadGraph;
use diagram::Diagram;
use mixed_graph::VSet;
use replies::{Format, Reply};
use std::alloc::{AllocError, Global};
use told::{Form, Refuses, reply};

/// What is told of the bytes of a certificate, with experiments on these sets.
pub fn check_reply(
    alloc: Global,
    diagram: &Diagram,
    experiments: &Vec<VSet>,
    certificate: &[u8],
    format: Format,
) -> Result<Reply, AllocError>
    requires { length certificate.now ≤ 67108864 }
    ensures { let seen = diagram.now.observed in IfOk result (λ r. Tells part_check_telling part_check_refusal
        (IsForCertificate (graph_of seen.graph) seen.names (masks_of experiments.now.items) certificate.now) (plain_form format) seen.names r.outcome (told_of r)) }
{
    let answer = check_answer(alloc, &diagram.observed, experiments, certificate);
    reply(alloc, Form::plain(format), &diagram.observed.names, &answer)
}

/// What is told of a certificate of more than 67,108,864 bytes.
pub fn long_certificate(alloc: Global) -> Result<Reply, AllocError>
    ensures { IfOk result (λ r. (form : AskedForm) (q : MixedGraph) (names : List (List ℕ)) (zs certificate : List ℕ) → 67108864 < length certificate
        → Tells part_check_telling part_check_refusal (IsForCertificate q names zs certificate) form names r.outcome (told_of r)) }
{
    CertificateFault::TooLong.refuse(alloc)
}

/// Whether a certificate shows what it says of an effect, in an observed graph.
///
/// Of one in parts these are accepted where each is that of its district, and they make up the effect; else the first fault is the answer. Any other is
/// answered as `check_command` does.
pub fn check_answer(
    alloc: Global,
    seen: &ReadGraph,
    experiments: &Vec<VSet>,
    certificate: &[u8],
) -> Result<Answer, Fault>
    requires { length certificate.now ≤ 67108864 }
    ensures answer { IfOk result (IsForText (graph_of seen.now.graph) seen.now.names (masks_of experiments.now.items) certificate.now) }
    ensures fault { IfErr result (UnlessWanting (IsFault (graph_of seen.now.graph) seen.now.names certificate.now)) }
{
    match check_command::check_answer(alloc, seen, experiments, certificate) {
        Ok(answer) => Ok(Answer::Whole(answer)),
        Err(fault) => answer_by_version(alloc, seen, certificate, fault),
    }
}

/// Whether the version of a text is another one than that of each certificate that is read.
fn is_version(fault: &CertFault) -> bool
    ensures { result ≡ is_version fault.now }
{
    match fault {
        CertFault::Version(_) => true,
        CertFault::NotJson
        | CertFault::Member(_)
        | CertFault::TooDeep
        | CertFault::Name(_)
        | CertFault::NoMemory => false,
    }
}

/// The same of a certificate.
fn is_of_other_version(fault: &CertificateFault) -> bool
    ensures { result ≡ is_of_other_version fault.now }
{
    match fault {
        CertificateFault::Faulty(fault) => is_version(fault),
        CertificateFault::TooLong | CertificateFault::NoMemory => false,
    }
}

/// The answer for a certificate that `check_command` doesn't read: where its version is another one, it may be one in parts.
fn answer_by_version(
    alloc: Global,
    seen: &ReadGraph,
    certificate: &[u8],
    fault: CertificateFault,
) -> Result<Answer, Fault>
    requires small { length certificate.now ≤ 67108864 }
    requires unread { IsUnreadWhole seen.now.names certificate.now fault }
    ensures answer { IfOk result (λ a. (zs : List ℕ) → IsForText (graph_of seen.now.graph) seen.now.names zs certificate.now a) }
    ensures fault { IfErr result (UnlessWanting (IsFault (graph_of seen.now.graph) seen.now.names certificate.now)) }
{
    if is_of_other_version(&fault) {
        return answer_in_parts(alloc, seen, certificate);
    }
    Err(Fault::Certificate(fault))
}

/// The answer for a certificate that is of neither version 1 nor version 2: one in parts, or none.
fn answer_in_parts(alloc: Global, seen: &ReadGraph, certificate: &[u8]) -> Result<Answer, Fault>
    requires small { length certificate.now ≤ 67108864 }
    requires version { IsOfOtherVersion seen.now.names certificate.now }
    ensures answer { IfOk result (λ a. (zs : List ℕ) → IsForText (graph_of seen.now.graph) seen.now.names zs certificate.now a) }
    ensures fault { IfErr result (UnlessWanting (IsFault (graph_of seen.now.graph) seen.now.names certificate.now)) }
{
    match read_part_answer(alloc, certificate, &seen.names) {
        Ok(PartCertificate::Treated(target, parts)) => decide_treated(alloc, seen, target, parts),
        Ok(PartCertificate::Natural(target, through, parts)) => {
            decide_nested(alloc, seen, target, through, parts)
        }
        Err(fault) => Err(Fault::Certificate(CertificateFault::Faulty(fault))),
    }
}
