//! The answer of `separate`.

ghost use Rattle.std.specs.Prelude.{◌≡◌, IfOk, IfErr};
ghost use Rattle.mixed_graph.specs.Vocabulary.{has, graph_of};
ghost use Rattle.do_rules.specs.Vocabulary.{AreThreeSets};
ghost use Rattle.targets.specs.Vocabulary.{OrMemory, IsTargetFault};
ghost use Rattle.diagram.specs.Vocabulary.{query_lists};
ghost use Rattle.replies.specs.Vocabulary.{told_of};
ghost use Rattle.told.specs.Vocabulary.{plain_form, target_refusal, Tells};
ghost use Rattle.separation_commands.specs.SeparateRight.{Decides, IsForLists, IsSeparateAnswer};
ghost use Rattle.separation_commands.specs.SeparateTelling.{separate_telling};
ghost use Rattle.separation_commands.specs.SeparateRequests.{request_of};

use crate::separate::answer::Answer;
use crate::separate::request::Request;
use diagram::{Diagram, asked_query};
use do_rules::independence;
use mixed_graph::Graph;
use replies::Reply;
use std::alloc::{AllocError, Global};
use targets::{Sets, TargetFault};
use told::{Form, reply};

/// What is told of a separation.
pub fn separate_reply(
    alloc: Global,
    diagram: &Diagram,
    asked: &Request<'_>,
) -> Result<Reply, AllocError>
    ensures { let q = request_of asked.now in IfOk result (λ r. Tells separate_telling target_refusal (IsSeparateAnswer diagram.now q.x q.y q.given)
        (plain_form q.format) diagram.now.observed.names r.outcome (told_of r)) }
{
    let answer = separate_answer(alloc, diagram, asked);
    reply(
        alloc,
        Form::plain(asked.format),
        &diagram.observed.names,
        &answer,
    )
}

/// Whether x and y are separated given a set, in the observed graph: then they are independent given it in each model that fits that graph.
///
/// A list that is missing is that of the exposures, the outcomes or the adjusted vertices.
pub fn separate_answer(
    alloc: Global,
    diagram: &Diagram,
    asked: &Request<'_>,
) -> Result<Answer, TargetFault>
    ensures answer { let q = request_of asked.now in
        IfOk result (IsForLists (graph_of diagram.now.observed.graph) (query_lists diagram.now.read diagram.now.observed.names q.x q.y q.given)) }
    ensures fault { let q = request_of asked.now in
        IfErr result (OrMemory (IsTargetFault (query_lists diagram.now.read diagram.now.observed.names q.x q.y q.given))) }
{
    let (x, y, given) = (
        asked.x.as_deref(),
        asked.y.as_deref(),
        asked.given.as_deref(),
    );
    let sets = asked_query(alloc, diagram, x, y, given)?;
    Ok(decide(&diagram.observed.graph, sets))
}

/// The answer for sets of a graph.
fn decide(g: &Graph, sets: Sets) -> Answer
    requires { AreThreeSets g.now.n (has sets.x.bits) (has sets.y.bits) (has sets.given.bits) }
    ensures { Decides (graph_of g.now) sets result }
{
    match independence(g, sets.x, sets.y, sets.given) {
        Ok(()) => Answer::Separated(sets),
        Err(path) => Answer::Connected(sets, path),
    }
}
