//! What is known before counts are read: a formula, or the answer.

ghost use Rattle.std.specs.Prelude.{Ok, Err, IfOk};
ghost use Rattle.diagram.specs.declared.diagram.Diagram.{Diagram as Drawn};
ghost use Rattle.diagram.specs.Vocabulary.{Names};
ghost use Rattle.replies.specs.Vocabulary.{told_of};
ghost use Rattle.told.specs.Vocabulary.{plain_form, target_refusal, Tells};
ghost use Rattle.evaluate_command.specs.Telling.{evaluate_telling};
ghost use Rattle.evaluate_command.specs.Firsts.{IsFirst, IsAnswered};
ghost use Rattle.evaluate_command.specs.First.{IsForDiagram};
ghost use Rattle.evaluate_command.specs.Requests.{request_of};
ghost use Rattle.evaluate_command.specs.Ways.{Way as AskedWay};

use crate::adjusting::by_adjusting;
use crate::answer::Answer;
use crate::conditional::by_condition;
use crate::identified::Identified;
use crate::procedure::by_procedure;
use crate::request::Request;
use crate::way::Way;
use diagram::Diagram;
use replies::{Format, Reply};
use std::alloc::{AllocError, Global};
use targets::TargetFault;
use told::{Form, reply};

/// What is known before counts are read.
#[derive(Drop)]
pub enum First {
    /// The effect has a formula.
    Found(Identified),
    /// The answer: there is no formula of the kind that is asked for; or what is wrong with the lists.
    Answered(Result<Answer, TargetFault>),
}

/// Identifies the effect of x on y in the observed graph, in one of three ways: a formula for it, or else the answer.
///
/// A list that is missing is that of the exposures or of the outcomes.
pub fn identify_first(alloc: Global, diagram: &Diagram, asked: &Request<'_>) -> First
    ensures { let q = request_of asked.now in IsFirst q.way diagram.now q.x q.y result }
{
    let (x, y) = (asked.x.as_deref(), asked.y.as_deref());
    match &asked.way {
        Way::Procedure { short } => by_procedure(alloc, diagram, x, y, *short),
        Way::Adjusting { set, back_door } => {
            by_adjusting(alloc, diagram, x, y, set.as_slice(), *back_door)
        }
        Way::Given { names, short } => by_condition(alloc, diagram, x, y, names.as_slice(), *short),
    }
}

/// What is told of the answer for which no counts are read.
pub fn first_reply(
    alloc: Global,
    diagram: &Diagram,
    answer: &Result<Answer, TargetFault>,
    format: Format,
) -> Result<Reply, AllocError>
    ensures { (way : AskedWay) (x y : Names) → IsAnswered way diagram.now x y answer.now
        → IfOk result (λ r. Tells evaluate_telling target_refusal (IsForDiagram way diagram.now x y) (plain_form format) diagram.now.observed.names r.outcome (told_of r)) }
{
    reply(alloc, Form::plain(format), &diagram.observed.names, answer)
}

/// What was found, or that memory is wanting.
pub fn or_memory(found: Result<First, AllocError>) -> First
    ensures { (way : AskedWay) (d : Drawn) (x y : Names) → IfOk found (IsFirst way d x y) → IsFirst way d x y result }
{
    match found {
        Ok(first) => first,
        Err(_) => First::Answered(Err(TargetFault::NoMemory)),
    }
}
