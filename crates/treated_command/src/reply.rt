//! The answer of `treated`.

ghost use Rattle.std.specs.Prelude.{◌<◌, ◌≤◌, Bool, Some, IfOk, IfErr};
ghost use Rattle.mixed_graph.specs.Vocabulary.{has, graph_of};
ghost use Rattle.do_rules.specs.Vocabulary.{AreThreeSets};
ghost use Rattle.prob_expr.specs.Vocabulary.{formula_view};
ghost use Rattle.diagram.specs.Vocabulary.{query_lists};
ghost use Rattle.replies.specs.Vocabulary.{told_of};
ghost use Rattle.told.specs.Vocabulary.{Tells, is_certified};
ghost use Rattle.treated_models.specs.Vocabulary.{name_count};
ghost use Rattle.treated_id.specs.Vocabulary.{AreBefore};
ghost use Rattle.treated_command.specs.Faults.{treated_refusal};
ghost use Rattle.treated_command.specs.Requests.{request_of};
ghost use Rattle.treated_command.specs.Right.{Decides, IsAskedFor, MayBeAsked, IsConfoundedBy, IsFormulaFor, IsForSets, IsOfSets, IsSetsFaultOrMemory, IsFaultOrMemory, IsTreatedAnswer};
ghost use Rattle.treated_command.specs.Telling.{treated_telling};

use crate::answer::{Answer, Asked};
use crate::fault::{TreatedFault, after};
use crate::request::Request;
use crate::texts::joint_of;
use dag_reader::ReadGraph;
use derived_certificates::treated_certificate;
use diagram::{Diagram, asked_condition};
use identify::{FormulaAnswer, identify_formula};
use mixed_graph::{Graph, VSet};
use primed_questions::are_too_many;
use prob_expr::Formula;
use replies::Reply;
use std::alloc::{AllocError, Global};
use targets::Sets;
use told::reply;
use treated_id::{Confounding, Treated, acted_on, names_of, treated};

/// What is told of an effect among the treated.
pub fn treated_reply(
    alloc: Global,
    diagram: &Diagram,
    asked: &Request<'_>,
) -> Result<Reply, AllocError>
    ensures { let q = request_of asked.now in IfOk result (λ r. Tells treated_telling treated_refusal (IsTreatedAnswer (is_certified q.form.writing) diagram.now q.x q.y q.given)
        q.form diagram.now.observed.names r.outcome (told_of r)) }
{
    let answer = treated_answer(alloc, diagram, asked, asked.form.writing.is_certified());
    reply(alloc, asked.form, &diagram.observed.names, &answer)
}

/// What y would be under do(x) among those for whom x, and what is given, were observed; in the observed graph (Shpitser and Pearl 2009).
/// Where that is asked for, the certificate takes the formula's place.
///
/// A list that is missing is that of the exposures or of the outcomes, or empty for what is given.
pub fn treated_answer(
    alloc: Global,
    diagram: &Diagram,
    asked: &Request<'_>,
    certified: bool,
) -> Result<Answer, TreatedFault>
    ensures answer { let q = request_of asked.now in let g = graph_of diagram.now.observed.graph in
        IfOk result (λ a. IsOfSets (query_lists diagram.now.read diagram.now.observed.names q.x q.y (Some q.given)) (λ s. IsForSets certified g s a)) }
    ensures fault { let q = request_of asked.now in let g = graph_of diagram.now.observed.graph in
        IfErr result (IsFaultOrMemory g (query_lists diagram.now.read diagram.now.observed.names q.x q.y (Some q.given))) }
{
    let (x, y) = (asked.x.as_deref(), asked.y.as_deref());
    match asked_condition(alloc, diagram, x, y, Some(asked.given.as_slice())) {
        Ok(sets) => decide(alloc, &diagram.observed, sets, certified),
        Err(fault) => Err(TreatedFault::Listed(fault)),
    }
}

/// The primed names of x by their numbers, where the effect may be asked for; or why it can't be.
pub fn primes_of(alloc: Global, seen: &ReadGraph, sets: Sets) -> Result<VSet, TreatedFault>
    requires { AreThreeSets seen.now.graph.n (has sets.x.bits) (has sets.y.bits) (has sets.given.bits) }
    ensures primes { IfOk result (λ v. MayBeAsked (graph_of seen.now.graph) sets (record { sets = sets; primes = v })) }
    ensures fault { IfErr result (IsSetsFaultOrMemory (graph_of seen.now.graph) seen.now.names sets) }
{
    let acted = acted_on(&seen.graph, sets.x, sets.given);
    if !acted.is_empty() {
        return Err(after(alloc, seen.names.name(acted.lowest())));
    }
    if are_too_many(&seen.graph, sets.x) {
        return Err(TreatedFault::TooMany);
    }
    Ok(names_of(seen.graph.n, sets.x, sets.x, sets.x))
}

/// The answer for sets of a graph.
fn decide(
    alloc: Global,
    seen: &ReadGraph,
    sets: Sets,
    certified: bool,
) -> Result<Answer, TreatedFault>
    requires sets { AreThreeSets seen.now.graph.n (has sets.x.bits) (has sets.y.bits) (has sets.given.bits) }
    requires some { 0 < sets.y.bits }
    ensures answer { IfOk result (IsForSets certified (graph_of seen.now.graph) sets) }
    ensures fault { IfErr result (IsSetsFaultOrMemory (graph_of seen.now.graph) seen.now.names sets) }
{
    let primes = primes_of(alloc, seen, sets)?;
    match identified(alloc, &seen.graph, Asked { sets, primes }, certified) {
        Ok(answer) => Ok(answer),
        Err(_) => Err(TreatedFault::NoMemory),
    }
}

/// The answer where x acts on none of x and what is given.
fn identified(alloc: Global, g: &Graph, asked: Asked, certified: bool) -> Result<Answer, AllocError>
    requires asked { IsAskedFor (graph_of g.now) asked.sets asked }
    requires sets { AreThreeSets g.now.n (has asked.sets.x.bits) (has asked.sets.y.bits) (has asked.sets.given.bits) }
    requires some { 0 < asked.sets.y.bits }
    requires before { AreBefore (graph_of g.now) asked.sets.x.bits asked.sets.given.bits }
    requires few { name_count g.now.n asked.sets.x.bits ≤ 64 }
    ensures { IfOk result (Decides certified (graph_of g.now) asked.sets) }
{
    let Sets { x, y, given } = asked.sets;
    match treated(alloc, g, x, y, given)? {
        Treated::Formula(formula) => found(alloc, g, asked, formula, certified),
        Treated::Confounded(confounding) => unidentified(alloc, g, asked, confounding),
    }
}

/// The answer where no treatment is confounded with a child of its own: the formula, or its certificate, where that is asked for.
fn found(
    alloc: Global,
    g: &Graph,
    asked: Asked,
    formula: Formula,
    certified: bool,
) -> Result<Answer, AllocError>
    requires asked { IsAskedFor (graph_of g.now) asked.sets asked }
    requires sets { AreThreeSets g.now.n (has asked.sets.x.bits) (has asked.sets.y.bits) (has asked.sets.given.bits) }
    requires some { 0 < asked.sets.y.bits }
    requires before { AreBefore (graph_of g.now) asked.sets.x.bits asked.sets.given.bits }
    requires formula { IsFormulaFor (graph_of g.now) asked.sets (formula_view formula) }
    ensures { IfOk result (Decides certified (graph_of g.now) asked.sets) }
{
    if !certified {
        return Ok(Answer::Formula(asked, formula));
    }
    let Sets { x, y, given } = asked.sets;
    let certificate = treated_certificate(alloc, g, x, y, given)?;
    Ok(Answer::Certified(asked, certificate))
}

/// The answer where a treatment is confounded with a child of its own: by a hedge for the joint effect, where there is one.
fn unidentified(
    alloc: Global,
    g: &Graph,
    asked: Asked,
    confounding: Confounding,
) -> Result<Answer, AllocError>
    requires asked { IsAskedFor (graph_of g.now) asked.sets asked }
    requires sets { AreThreeSets g.now.n (has asked.sets.x.bits) (has asked.sets.y.bits) (has asked.sets.given.bits) }
    requires some { 0 < asked.sets.y.bits }
    requires before { AreBefore (graph_of g.now) asked.sets.x.bits asked.sets.given.bits }
    requires by { IsConfoundedBy (graph_of g.now) asked.sets confounding }
    ensures { (certified : Bool) → IfOk result (Decides certified (graph_of g.now) asked.sets) }
{
    // Its clause says which set has the ancestors of what is observed.
    let _past = g.ancestors(asked.sets.x.union(asked.sets.given));
    match identify_formula(alloc, g, asked.sets.x, joint_of(asked))? {
        FormulaAnswer::Hedge(hedge, pair) => Ok(Answer::Excluded(asked, confounding, hedge, pair)),
        FormulaAnswer::Formula(_) => Ok(Answer::Unfixed(asked, confounding)),
    }
}
