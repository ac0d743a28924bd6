//! The answer of `graph`.

ghost use Rattle.std.specs.Prelude.{◌≡◌, IfOk};
ghost use Rattle.replies.specs.Vocabulary.{told_of};
ghost use Rattle.told.specs.Vocabulary.{plain_form, target_refusal, Tells};
ghost use Rattle.separation_commands.specs.GraphRight.{IsGraphAnswer, shown_of};
ghost use Rattle.separation_commands.specs.GraphTelling.{graph_telling};

use crate::graph::answer::Answer;
use crate::graph::request::Request;
use diagram::Diagram;
use replies::Reply;
use std::alloc::{AllocError, Global};
use told::{Form, tell};

/// What is told of a graph, or of its observed graph.
pub fn graph_reply(
    alloc: Global,
    diagram: &Diagram,
    asked: &Request<'_>,
) -> Result<Reply, AllocError>
    ensures { IfOk result (λ r. Tells graph_telling target_refusal (IsGraphAnswer asked.now.project diagram.now) (plain_form asked.now.format)
        diagram.now.observed.names r.outcome (told_of r)) }
{
    let answer = graph_answer(diagram, asked.project);
    tell(
        alloc,
        Form::plain(asked.format),
        &diagram.observed.names,
        &answer,
    )
}

/// The graph that was read, or its observed graph.
pub fn graph_answer<'a>(diagram: &'a Diagram, project: bool) -> Answer<'a>
    ensures { result.graph.now ≡ shown_of project diagram.now }
{
    if project {
        Answer {
            graph: &diagram.observed,
        }
    } else {
        Answer {
            graph: &diagram.read,
        }
    }
}
