//! The answer of `natural`.

ghost use Rattle.std.specs.Prelude.{◌<◌, ◌≤◌, ◌≡◌, Some, true, false, IfOk, IfErr};
ghost use Rattle.mixed_graph.specs.Vocabulary.{has, graph_of};
ghost use Rattle.do_rules.specs.Vocabulary.{AreFourSets};
ghost use Rattle.replies.specs.Vocabulary.{told_of};
ghost use Rattle.told.specs.Vocabulary.{Tells, is_certified};
ghost use Rattle.treated_models.specs.Vocabulary.{name_count};
ghost use Rattle.nested_models.specs.Vocabulary.{HasNoIndirectPath, HasNoDirectPath};
ghost use Rattle.natural_command.specs.Asking.{natural_lists};
ghost use Rattle.natural_command.specs.Faults.{natural_refusal};
ghost use Rattle.natural_command.specs.Requests.{request_of};
ghost use Rattle.natural_command.specs.Right.{AreBefore, Decides, IsAskedFor, MayBeAsked, IsForQuestion, IsOfQuestion, IsQuestionFaultOrMemory, IsFaultOrMemory, IsNaturalAnswer};
ghost use Rattle.natural_command.specs.Telling.{natural_telling};

use crate::answer::{Answer, Asked};
use crate::asking::{Question, question_of};
use crate::fault::{NaturalFault, after};
use crate::request::Request;
use dag_reader::ReadGraph;
use derived_certificates::natural_certificate;
use diagram::Diagram;
use interventional_id::interventional;
use mixed_graph::{Graph, joined};
use natural_id::{Natural, leading_past, leading_through, natural};
use primed_questions::are_too_many;
use replies::Reply;
use std::alloc::{AllocError, Global};
use told::reply;
use treated_id::names_of;

/// What is told of a nested effect.
pub fn natural_reply(
    alloc: Global,
    diagram: &Diagram,
    asked: &Request<'_>,
) -> Result<Reply, AllocError>
    ensures { let q = request_of asked.now in IfOk result (λ r. Tells natural_telling natural_refusal
        (IsNaturalAnswer (is_certified q.form.writing) diagram.now q.x q.y q.through q.given) q.form diagram.now.observed.names r.outcome (told_of r)) }
{
    let certified = asked.form.writing.is_certified();
    let answer = natural_answer(alloc, diagram, asked, certified);
    reply(alloc, asked.form, &diagram.observed.names, &answer)
}

/// What y would be under do(x), were the mediators as under another value of x, where what is given was observed; in the observed graph
/// (Pearl 2001).
///
/// A list x or y that is missing is that of the exposures or of the outcomes; what is given is empty where it is missing. Where `certified`,
/// a certificate takes the place of a formula.
pub fn natural_answer(
    alloc: Global,
    diagram: &Diagram,
    asked: &Request<'_>,
    certified: bool,
) -> Result<Answer, NaturalFault>
    ensures answer { let r = request_of asked.now in let g = graph_of diagram.now.observed.graph in
        IfOk result (λ a. IsOfQuestion (natural_lists diagram.now r.x r.y r.through r.given) (λ q. IsForQuestion certified g q a)) }
    ensures fault { let r = request_of asked.now in let g = graph_of diagram.now.observed.graph in
        IfErr result (IsFaultOrMemory g (natural_lists diagram.now r.x r.y r.through r.given)) }
{
    let (x, y) = (asked.x.as_deref(), asked.y.as_deref());
    let (through, given) = (asked.through.as_slice(), asked.given.as_slice());
    match question_of(alloc, diagram, x, y, through, given) {
        Ok(question) => decide(alloc, &diagram.observed, question, certified),
        Err(fault) => Err(fault),
    }
}

/// The answer to a question about a graph.
fn decide(
    alloc: Global,
    seen: &ReadGraph,
    question: Question,
    certified: bool,
) -> Result<Answer, NaturalFault>
    requires sets { let q = question in AreFourSets seen.now.graph.n (has q.x.bits) (has q.y.bits) (has q.through.bits) (has q.given.bits) }
    requires some { 0 < question.x.bits }
    requires outcome { 0 < question.y.bits }
    requires mediator { 0 < question.through.bits }
    ensures answer { IfOk result (IsForQuestion certified (graph_of seen.now.graph) question) }
    ensures fault { IfErr result (IsQuestionFaultOrMemory (graph_of seen.now.graph) seen.now.names question) }
{
    let asked = asked_by(alloc, seen, question)?;
    match identified(alloc, &seen.graph, question, asked, certified) {
        Ok(answer) => Ok(answer),
        Err(_) => Err(NaturalFault::NoMemory),
    }
}

/// What is asked by this question, with the second names of x; or why it can't be asked.
pub fn asked_by(alloc: Global, seen: &ReadGraph, question: Question) -> Result<Asked, NaturalFault>
    requires { let q = question in AreFourSets seen.now.graph.n (has q.x.bits) (has q.y.bits) (has q.through.bits) (has q.given.bits) }
    ensures asked { IfOk result (MayBeAsked (graph_of seen.now.graph) question) }
    ensures fault { IfErr result (IsQuestionFaultOrMemory (graph_of seen.now.graph) seen.now.names question) }
{
    let acted = question
        .given
        .intersection(seen.graph.descendants(question.x));
    if !acted.is_empty() {
        return Err(after(alloc, seen.names.name(acted.lowest())));
    }
    if are_too_many(&seen.graph, question.x) {
        return Err(NaturalFault::TooMany);
    }
    Ok(asked_of(&seen.graph, question))
}

/// The question with the primed names of x, and with the ways that lead from x to y.
fn asked_of(g: &Graph, question: Question) -> Asked
    requires sets { let q = question in AreFourSets g.now.n (has q.x.bits) (has q.y.bits) (has q.through.bits) (has q.given.bits) }
    requires before { AreBefore (graph_of g.now) question }
    requires few { name_count g.now.n question.x.bits ≤ 64 }
    ensures { IsAskedFor (graph_of g.now) question result }
{
    let Question { x, through, y, .. } = question;
    let children = joined(&g.children, x);
    let past = leading_past(g, x, through, y);
    let indirect = leading_through(g, x, through, past, y);
    Asked {
        question,
        primes: names_of(g.n, x, x, x),
        indirect: !children.intersection(indirect).is_empty(),
        direct: !children.intersection(past).is_empty(),
    }
}

/// The answer where x acts on none of what is given.
fn identified(
    alloc: Global,
    g: &Graph,
    question: Question,
    asked: Asked,
    certified: bool,
) -> Result<Answer, AllocError>
    requires asked { IsAskedFor (graph_of g.now) question asked }
    requires sets { let q = question in AreFourSets g.now.n (has q.x.bits) (has q.y.bits) (has q.through.bits) (has q.given.bits) }
    requires some { 0 < question.x.bits }
    requires outcome { 0 < question.y.bits }
    requires mediator { 0 < question.through.bits }
    requires before { AreBefore (graph_of g.now) question }
    ensures { IfOk result (Decides certified (graph_of g.now) question) }
{
    let Question {
        x,
        through,
        y,
        given,
    } = question;
    match natural(alloc, g, x, through, y, given)? {
        Natural::Formula(formula) => {
            if !certified {
                return Ok(Answer::Formula(asked, formula));
            }
            let certificate = natural_certificate(alloc, g, x, through, y, given)?;
            Ok(Answer::Certified(asked, certificate))
        }
        Natural::Hedge(hedge, pair) => Ok(Answer::Excluded(asked, hedge, pair)),
        Natural::Witness(witness) => {
            let other = interventional(alloc, g, x, through, y, given)?;
            Ok(Answer::Witness(asked, witness, other))
        }
        Natural::Split(split) => {
            let other = interventional(alloc, g, x, through, y, given)?;
            Ok(Answer::Split(asked, split, other))
        }
    }
}
