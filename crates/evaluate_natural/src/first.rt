//! What is known before counts are read: a formula, or the answer.

ghost use Rattle.std.specs.Prelude.{Ok, Err, IfOk, false};
ghost use Rattle.natural_command.specs.Requests.{Request as AskedEffect};
ghost use Rattle.natural_command.specs.Vocabulary.{IsNaturalAnswer, natural_refusal, natural_telling};
ghost use Rattle.replies.specs.Vocabulary.{told_of};
ghost use Rattle.told.specs.Vocabulary.{Tells};
ghost use Rattle.evaluate_natural.specs.First.{IsAnswered, IsFirst, IsForDiagram};
ghost use Rattle.evaluate_natural.specs.Requests.{request_of};

use crate::identified::Identified;
use crate::request::Request;
use diagram::Diagram;
use natural_command::{Answer, NaturalFault, natural_answer};
use natural_values::natural_factors;
use replies::Reply;
use std::alloc::{AllocError, Global};
use told::{Form, reply};

/// What is known before counts are read.
#[derive(Drop)]
pub enum First {
    /// The effect has a formula.
    Found(Identified),
    /// The answer: there is no formula; or what is wrong with the lists.
    Answered(Result<Answer, NaturalFault>),
}

/// Identifies the nested effect in the observed graph: factors for it, or else the answer.
///
/// A list x or y that is missing is that of the exposures or of the outcomes; what is given is empty where it is missing.
pub fn identify_nested(alloc: Global, diagram: &Diagram, asked: &Request<'_>) -> First
    ensures { IsFirst diagram.now (request_of asked.now).effect result }
{
    match natural_answer(alloc, diagram, &asked.effect, false) {
        Ok(answer) => with_factors(alloc, diagram, answer),
        Err(fault) => First::Answered(Err(fault)),
    }
}

/// The answer, with the factors of its formula where it has one.
fn with_factors(alloc: Global, diagram: &Diagram, answer: Answer) -> First
    ensures { (q : AskedEffect) → IsNaturalAnswer false diagram.now q.x q.y q.through q.given (Ok answer) → IsFirst diagram.now q result }
{
    match answer {
        Answer::Formula(asked, formula) => {
            match natural_factors(alloc, formula, asked.question.given) {
                Ok(factors) => First::Found(Identified { asked, factors }),
                Err(_) => First::Answered(Err(NaturalFault::NoMemory)),
            }
        }
        Answer::Certified(asked, c) => First::Answered(Ok(Answer::Certified(asked, c))),
        Answer::Excluded(asked, h, pair) => {
            First::Answered(Ok(Answer::Excluded(asked, h, pair)))
        }
        Answer::Witness(asked, w, other) => First::Answered(Ok(Answer::Witness(asked, w, other))),
        Answer::Split(asked, s, other) => First::Answered(Ok(Answer::Split(asked, s, other))),
    }
}

/// What is told of the answer for which no counts are read.
pub fn first_reply(
    alloc: Global,
    diagram: &Diagram,
    answer: &Result<Answer, NaturalFault>,
    form: Form,
) -> Result<Reply, AllocError>
    ensures { (q : AskedEffect) → IsAnswered diagram.now q answer.now
        → IfOk result (λ r. Tells natural_telling natural_refusal (IsForDiagram diagram.now q) form diagram.now.observed.names r.outcome (told_of r)) }
{
    reply(alloc, form, &diagram.observed.names, answer)
}
