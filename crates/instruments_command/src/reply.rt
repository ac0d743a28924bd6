//! The answer of `instruments`.

ghost use Rattle.std.specs.Prelude.{◌≡◌, ◌<◌, ◌≤◌, Some, [], IfOk, IfErr};
ghost use Rattle.mixed_graph.specs.Vocabulary.{has, graph_of};
ghost use Rattle.do_rules.specs.Vocabulary.{AreThreeSets};
ghost use Rattle.targets.specs.Vocabulary.{OrMemory, IsTargetFault};
ghost use Rattle.diagram.specs.Vocabulary.{query_lists};
ghost use Rattle.replies.specs.Vocabulary.{told_of};
ghost use Rattle.told.specs.Vocabulary.{plain_form, target_refusal, Tells};
ghost use Rattle.instruments_command.specs.Requests.{request_of};
ghost use Rattle.instruments_command.specs.Right.{have_strata, Lists, IsForLists, IsInstrumentsAnswer};
ghost use Rattle.instruments_command.specs.Telling.{instruments_telling};

use crate::answer::Answer;
use crate::request::Request;
use diagram::{Diagram, asked_query};
use instrument_sets::{Candidate, list_instruments};
use minimal_sets::Steps;
use mixed_graph::Graph;
use replies::Reply;
use std::alloc::{AllocError, Global};
use std::marker::Brand;
use std::sync::ledger::{Blank, Ledger};
use targets::{Sets, TargetFault};
use told::{Form, reply};

/// What is told of the instruments of an effect.
pub fn instruments_reply(
    alloc: Global,
    diagram: &Diagram,
    asked: &Request<'_>,
) -> Result<Reply, AllocError>
    ensures { let q = request_of asked.now in IfOk result (λ r. Tells instruments_telling target_refusal (IsInstrumentsAnswer diagram.now q.x q.y q.most)
        (plain_form q.format) diagram.now.observed.names r.outcome (told_of r)) }
{
    let answer = instruments_answer(alloc, diagram, asked);
    reply(
        alloc,
        Form::plain(asked.format),
        &diagram.observed.names,
        &answer,
    )
}

/// The conditional instruments for the effect of x on y, in the observed graph, each with its minimal sets of strata
/// (Pearl; van der Zander, Textor and Liskiewicz).
///
/// A list that is missing is that of the exposures or of the outcomes.
pub fn instruments_answer(
    alloc: Global,
    diagram: &Diagram,
    asked: &Request<'_>,
) -> Result<Answer, TargetFault>
    ensures answer { let q = request_of asked.now in IfOk result (IsForLists q.most (graph_of diagram.now.observed.graph)
        (query_lists diagram.now.read diagram.now.observed.names q.x q.y (Some []))) }
    ensures fault { let q = request_of asked.now in
        IfErr result (OrMemory (IsTargetFault (query_lists diagram.now.read diagram.now.observed.names q.x q.y (Some [])))) }
{
    let (x, y) = (asked.x.as_deref(), asked.y.as_deref());
    let sets = asked_query(alloc, diagram, x, y, Some(&[]))?;
    match list(alloc, &diagram.observed.graph, sets, asked.most) {
        Ok(answer) => Ok(answer),
        Err(_) => Err(TargetFault::NoMemory),
    }
}

/// The answer for sets of a graph. The only error is want of memory.
fn list(alloc: Global, graph: &Graph, sets: Sets, most: u32) -> Result<Answer, AllocError>
    requires sets { AreThreeSets graph.now.n (has sets.x.bits) (has sets.y.bits) (has sets.given.bits) }
    requires most { 1 ≤ most }
    ensures { IfOk result (Lists most (graph_of graph.now) sets) }
{
    list_counted::<Brand>(alloc, Blank::new(1), graph, sets, most)
}

/// The same with a blank for the count of the separators computed.
fn list_counted<L: Ledger>(
    alloc: Global,
    blank: Blank,
    graph: &Graph,
    sets: Sets,
    most: u32,
) -> Result<Answer, AllocError>
    requires name { blank.name ≡ L.name }
    requires parts { blank.parts ≡ L.parts }
    requires some { 0 < blank.parts }
    requires sets { AreThreeSets graph.now.n (has sets.x.bits) (has sets.y.bits) (has sets.given.bits) }
    requires most { 1 ≤ most }
    ensures { IfOk result (Lists most (graph_of graph.now) sets) }
{
    let mut steps = Steps::<L>::new(blank);
    let list = list_instruments(alloc, graph, sets.x, sets.y, most, &mut steps)?;
    if have_strata(list.as_slice()) {
        return Ok(Answer::Listed(sets, list));
    }
    Ok(Answer::NoInstrument(sets))
}

/// Whether some vertex has a set of strata.
fn have_strata(list: &[Candidate]) -> bool
    ensures { result ≡ have_strata list.now }
{
    for c in list {
        if !c.strata.sets.is_empty() {
            return true;
        }
    }
    false
}
