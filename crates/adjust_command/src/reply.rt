//! The answer of `adjust`.

ghost use Rattle.std.specs.Prelude.{◌≡◌, ◌<◌, IfOk, IfErr};
ghost use Rattle.mixed_graph.specs.Vocabulary.{has, texts, graph_of};
ghost use Rattle.do_rules.specs.Vocabulary.{AreThreeSets};
ghost use Rattle.targets.specs.Vocabulary.{OrMemory};
ghost use Rattle.replies.specs.Vocabulary.{told_of};
ghost use Rattle.told.specs.Vocabulary.{plain_form, target_refusal, Tells};
ghost use Rattle.adjust_command.specs.Queries.{query_of, IsInRange, set_of, adjust_lists};
ghost use Rattle.adjust_command.specs.Requests.{request_of};
ghost use Rattle.adjust_command.specs.Right.{Decides, IsNotDecided, IsForLists, IsAdjustFault, IsAdjustAnswer};
ghost use Rattle.adjust_command.specs.Telling.{adjust_telling};

use crate::answer::Answer;
use crate::criteria::by_criterion;
use crate::listing::list_sets;
use crate::query::Query;
use crate::request::Request;
use diagram::{Diagram, asked_query};
use mixed_graph::Graph;
use replies::Reply;
use std::alloc::{AllocError, Global};
use targets::{Sets, TargetFault};
use told::{Form, reply};

/// What is told of a set that may be adjusted for, or of the minimal sets that may.
pub fn adjust_reply(
    alloc: Global,
    diagram: &Diagram,
    asked: &Request<'_>,
) -> Result<Reply, AllocError>
    ensures { let q = request_of asked.now in IfOk result (λ r. Tells adjust_telling target_refusal (IsAdjustAnswer diagram.now q.x q.y q.query)
        (plain_form q.format) diagram.now.observed.names r.outcome (told_of r)) }
{
    let answer = adjust_answer(alloc, diagram, asked);
    reply(
        alloc,
        Form::plain(asked.format),
        &diagram.observed.names,
        &answer,
    )
}

/// Whether a set may be adjusted for to compute the effect of x on y, in the observed graph, or the minimal
/// sets that may (Shpitser, VanderWeele and Robins; van der Zander, Liskiewicz and Textor; Pearl).
///
/// A list that is missing is that of the exposures or of the outcomes. A listing gives at least one set and at
/// most 10,000.
pub fn adjust_answer(
    alloc: Global,
    diagram: &Diagram,
    asked: &Request<'_>,
) -> Result<Answer, TargetFault>
    ensures answer { let q = request_of asked.now in IfOk result (IsForLists q.query (graph_of diagram.now.observed.graph)
        (adjust_lists diagram.now.read diagram.now.observed.names q.x q.y q.query)) }
    ensures fault { let q = request_of asked.now in
        IfErr result (OrMemory (IsAdjustFault q.query (adjust_lists diagram.now.read diagram.now.observed.names q.x q.y q.query))) }
{
    let (x, y) = (asked.x.as_deref(), asked.y.as_deref());
    let set = set_of(&asked.query);
    let sets = asked_query(alloc, diagram, x, y, Some(set))?;
    decide(alloc, &diagram.observed.graph, sets, &asked.query)
}

/// The names of the set that is asked about.
fn set_of(query: &Query) -> &[Vec<u8>]
    ensures { texts result.now ≡ set_of (query_of query.now) }
{
    match query {
        Query::Set(set) => set.as_slice(),
        Query::BackDoor(set) => set.as_slice(),
        Query::List(_) => &[],
    }
}

/// The answer for sets of the observed graph.
fn decide(alloc: Global, graph: &Graph, sets: Sets, query: &Query) -> Result<Answer, TargetFault>
    requires sets { AreThreeSets graph.now.n (has sets.x.bits) (has sets.y.bits) (has sets.given.bits) }
    requires some { 0 < sets.x.bits }
    requires most { IsInRange (query_of query.now) }
    ensures answer { IfOk result (Decides (query_of query.now) (graph_of graph.now) sets) }
    ensures fault { IfErr result (OrMemory (IsNotDecided (query_of query.now) sets)) }
{
    match query {
        Query::Set(_) => by_criterion(graph, sets, false),
        Query::BackDoor(_) => by_criterion(graph, sets, true),
        Query::List(most) => match list_sets(alloc, graph, sets, *most) {
            Ok(answer) => Ok(answer),
            Err(_) => Err(TargetFault::NoMemory),
        },
    }
}
