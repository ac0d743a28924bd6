//! The answer for the parts of an effect among the treated.

ghost use Rattle.std.specs.Prelude.{◌≡◌, ℕ, true, Some, IfErr, IfOk};
ghost use Rattle.mixed_graph.specs.Vocabulary.{has, graph_of};
ghost use Rattle.prob_expr.specs.Vocabulary.{target_view};
ghost use Rattle.do_rules.specs.Vocabulary.{AreThreeSets};
ghost use Rattle.derived_parts.specs.Vocabulary.{AreSound, derived_views};
ghost use Rattle.part_check_command.specs.Decisions.{DecidesAmong, IsFaultAmong, UnlessWanting};
ghost use Rattle.part_check_command.specs.Faults.{is_memory};
ghost use Rattle.part_check_command.specs.Right.{treated_lemmas};

use crate::answer::Answer;
use crate::counting::{lemma_counts, lemmas_at_fault};
use crate::fault::Fault;
use check_command::CertificateFault;
use dag_reader::ReadGraph;
use derived_parts::DerivedPart;
use part_checks::{TreatedPartsFault, check_treated_parts};
use prob_expr::Target;
use std::alloc::Global;
use targets::Sets;
use treated_command::{Asked, primes_of};

/// The number of lemmas that is told with a fault; nothing where memory was refused.
fn lemmas_told(counts: &[usize], fault: TreatedPartsFault) -> Option<usize>
    ensures { result ≡ treated_lemmas counts.now fault }
{
    match fault {
        TreatedPartsFault::Confounded(_) => Some(0),
        TreatedPartsFault::Parts(fault) => lemmas_at_fault(counts, fault),
    }
}

/// The answer for parts that aren't accepted, whose derivations have so many lemmas.
fn refused(counts: &[usize], fault: TreatedPartsFault) -> Result<Answer, Fault>
    ensures answer { IfOk result (λ a. (lemmas : ℕ) × (treated_lemmas counts.now fault ≡ Some lemmas) × (a ≡ Answer.RefusedTreated fault lemmas)) }
    ensures fault { IfErr result (λ f. is_memory f ≡ true) }
{
    match lemmas_told(counts, fault) {
        Some(lemmas) => Ok(Answer::RefusedTreated(fault, lemmas)),
        None => Err(Fault::Certificate(CertificateFault::NoMemory)),
    }
}

/// Whether these parts make up the effect of x on y, among those for whom x and what is given were observed.
pub fn decide_treated(
    alloc: Global,
    seen: &ReadGraph,
    target: Target,
    parts: Vec<DerivedPart>,
) -> Result<Answer, Fault>
    requires sets { AreThreeSets seen.now.graph.n (has target.x.bits) (has target.y.bits) (has target.given.bits) }
    requires sound { AreSound seen.now.graph.n (derived_views parts.items) }
    ensures answer { IfOk result (DecidesAmong (graph_of seen.now.graph) (target_view target) (derived_views parts.items)) }
    ensures fault { IfErr result (UnlessWanting (IsFaultAmong (graph_of seen.now.graph) seen.now.names (target_view target))) }
{
    let sets = Sets {
        x: target.x,
        y: target.y,
        given: target.given,
    };
    let asked = match primes_of(alloc, seen, sets) {
        Ok(primes) => Asked { sets, primes },
        Err(fault) => return Err(Fault::Treated(fault)),
    };
    let counts = lemma_counts(alloc, &parts)?;
    match check_treated_parts(alloc, &seen.graph, sets.x, sets.y, sets.given, parts) {
        Ok(formula) => Ok(Answer::Treated(asked, formula)),
        Err(fault) => refused(counts.as_slice(), fault),
    }
}
