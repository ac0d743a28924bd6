//! The answer of `check`.

ghost use Rattle.std.specs.Prelude.{◌≡◌, ◌≤◌, false, IfOk, IfErr, length};
ghost use Rattle.mixed_graph.specs.Vocabulary.{graph_of};
ghost use Rattle.prob_expr.specs.Vocabulary.{masks_of};
ghost use Rattle.check_command.specs.CertificateFaults.{is_memory};
ghost use Rattle.check_command.specs.Right.{IsForText, IsCertificateFault};

use crate::answer::Answer;
use crate::fault::CertificateFault;
use crate::formula::decide_formula;
use crate::hedge_data::decide_hedge;
use certificate::{Certificate, read_answer};
use dag_reader::ReadGraph;
use mixed_graph::VSet;
use std::alloc::Global;

/// Whether a certificate shows what it says of an effect, in an observed graph.
///
/// A formula is accepted where the steps make it of the effect, and its terms are observed or under an experiment; a hedge where it is one that each
/// experiment leaves alone or meets in its smaller set. Else the first fault is the answer.
pub fn check_answer(
    alloc: Global,
    seen: &ReadGraph,
    experiments: &Vec<VSet>,
    certificate: &[u8],
) -> Result<Answer, CertificateFault>
    requires { length certificate.now ≤ 67108864 }
    ensures answer { IfOk result (IsForText (graph_of seen.now.graph) seen.now.names (masks_of experiments.now.items) certificate.now) }
    ensures fault { IfErr result (λ fault. is_memory fault ≡ false → IsCertificateFault seen.now.names certificate.now fault) }
{
    let sets = experiments.as_slice();
    match read_answer(alloc, certificate, &seen.names) {
        Ok(Certificate::Formula(target, formula, derivation)) => {
            let answer = decide_formula(alloc, seen, sets, target, formula, derivation)?;
            Ok(answer)
        }
        Ok(Certificate::Hedge(target, hedge)) => Ok(decide_hedge(seen, sets, &target, &hedge)),
        Err(fault) => Err(CertificateFault::Faulty(fault)),
    }
}
