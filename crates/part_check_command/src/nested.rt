//! The answer for the parts of a nested effect.

ghost use Rattle.std.specs.Prelude.{◌≡◌, ℕ, true, Some, IfErr, IfOk};
ghost use Rattle.mixed_graph.specs.Vocabulary.{has, graph_of};
ghost use Rattle.prob_expr.specs.Vocabulary.{target_view};
ghost use Rattle.do_rules.specs.Vocabulary.{AreFourSets};
ghost use Rattle.derived_parts.specs.Vocabulary.{AreSound, derived_views};
ghost use Rattle.part_check_command.specs.Decisions.{DecidesNested, IsFaultNested, UnlessWanting};
ghost use Rattle.part_check_command.specs.Faults.{is_memory};
ghost use Rattle.part_check_command.specs.Right.{nested_lemmas};

use crate::answer::Answer;
use crate::counting::{lemma_counts, lemmas_at_fault};
use crate::fault::Fault;
use check_command::CertificateFault;
use dag_reader::ReadGraph;
use derived_parts::DerivedPart;
use mixed_graph::VSet;
use natural_command::{Question, asked_by};
use part_checks::{NaturalPartsFault, check_natural_parts};
use prob_expr::Target;
use std::alloc::Global;

/// The number of lemmas that is told with a fault; nothing where memory was refused.
fn lemmas_told(counts: &[usize], fault: NaturalPartsFault) -> Option<usize>
    ensures { result ≡ nested_lemmas counts.now fault }
{
    match fault {
        NaturalPartsFault::Witness(_) | NaturalPartsFault::Split(_) => Some(0),
        NaturalPartsFault::Parts(fault) => lemmas_at_fault(counts, fault),
    }
}

/// The answer for parts that aren't accepted, whose derivations have so many lemmas.
fn refused(counts: &[usize], fault: NaturalPartsFault) -> Result<Answer, Fault>
    ensures answer { IfOk result (λ a. (lemmas : ℕ) × (nested_lemmas counts.now fault ≡ Some lemmas) × (a ≡ Answer.RefusedNatural fault lemmas)) }
    ensures fault { IfErr result (λ f. is_memory f ≡ true) }
{
    match lemmas_told(counts, fault) {
        Some(lemmas) => Ok(Answer::RefusedNatural(fault, lemmas)),
        None => Err(Fault::Certificate(CertificateFault::NoMemory)),
    }
}

/// Whether these parts make up y under do(x), were the mediators as under another do(x), where what is given was observed.
pub fn decide_nested(
    alloc: Global,
    seen: &ReadGraph,
    target: Target,
    through: VSet,
    parts: Vec<DerivedPart>,
) -> Result<Answer, Fault>
    requires sets { AreFourSets seen.now.graph.n (has target.x.bits) (has target.y.bits) (has through.bits) (has target.given.bits) }
    requires sound { AreSound seen.now.graph.n (derived_views parts.items) }
    ensures answer { IfOk result (DecidesNested (graph_of seen.now.graph) (target_view target) through.bits (derived_views parts.items)) }
    ensures fault { IfErr result (UnlessWanting (IsFaultNested (graph_of seen.now.graph) seen.now.names (target_view target) through.bits)) }
{
    let (x, y, given) = (target.x, target.y, target.given);
    let question = Question {
        x,
        through,
        y,
        given,
    };
    let asked = match asked_by(alloc, seen, question) {
        Ok(asked) => asked,
        Err(fault) => return Err(Fault::Natural(fault)),
    };
    let counts = lemma_counts(alloc, &parts)?;
    match check_natural_parts(alloc, &seen.graph, x, through, y, given, parts) {
        Ok(formula) => Ok(Answer::Natural(asked, formula)),
        Err(fault) => refused(counts.as_slice(), fault),
    }
}
