//! What is known before counts are read: how values are had, or the answer.

ghost use Rattle.std.specs.Prelude.{false, Ok, Err, IfOk};
ghost use Rattle.treated_command.specs.Requests.{Request as AskedEffect};
ghost use Rattle.treated_command.specs.Vocabulary.{IsTreatedAnswer, treated_refusal, treated_telling};
ghost use Rattle.replies.specs.Vocabulary.{told_of};
ghost use Rattle.told.specs.Vocabulary.{Tells};
ghost use Rattle.evaluate_treated.specs.First.{IsAnswered, IsFirst, IsForDiagram};
ghost use Rattle.evaluate_treated.specs.Requests.{request_of};

use crate::identified::{Identified, Way};
use crate::request::Request;
use diagram::Diagram;
use identify::{FormulaAnswer, identify_formula};
use named_factors::named_factors;
use replies::Reply;
use std::alloc::{AllocError, Global};
use told::{Form, reply};
use treated_command::{Answer, Asked, TreatedFault, treated_answer};
use treated_id::Confounding;

/// What is known before counts are read.
#[derive(Drop)]
pub enum First {
    /// The effect has a formula, or the joint effect of one treatment has.
    Found(Identified),
    /// The answer: there is none; or what is wrong with the lists.
    Answered(Result<Answer, TreatedFault>),
}

/// Identifies the effect of x on y among those for whom x was observed, in the observed graph:
/// factors for it, or a formula of the joint effect, or else the answer.
///
/// A list that is missing is that of the exposures or of the outcomes, or empty for what is given.
pub fn identify_among(alloc: Global, diagram: &Diagram, asked: &Request<'_>) -> First
    ensures { IsFirst diagram.now (request_of asked.now).effect result }
{
    match treated_answer(alloc, diagram, &asked.effect, false) {
        Ok(answer) => with_way(alloc, diagram, answer),
        Err(fault) => First::Answered(Err(fault)),
    }
}

/// The answer, with the factors of its formula where it has one, or with the formula of the joint effect.
fn with_way(alloc: Global, diagram: &Diagram, answer: Answer) -> First
    requires { (q : AskedEffect) × IsTreatedAnswer false diagram.now q.x q.y q.given (Ok answer) }
    ensures { (q : AskedEffect) → IsTreatedAnswer false diagram.now q.x q.y q.given (Ok answer) → IsFirst diagram.now q result }
{
    match answer {
        Answer::Formula(asked, formula) => {
            let n = diagram.observed.graph.n;
            match named_factors(alloc, n, asked.sets.x, &formula.main) {
                Ok(factors) => First::Found(Identified {
                    asked,
                    way: Way::Factors(factors),
                }),
                Err(_) => First::Answered(Err(TreatedFault::NoMemory)),
            }
        }
        Answer::Certified(_, _) => unreachable!(),
        Answer::Excluded(asked, c, h, pair) => {
            First::Answered(Ok(Answer::Excluded(asked, c, h, pair)))
        }
        Answer::Unfixed(asked, c) => with_joint(alloc, diagram, asked, c),
    }
}

/// The answer by a path, with the formula of the joint effect where x is one vertex.
fn with_joint(alloc: Global, diagram: &Diagram, asked: Asked, c: Confounding) -> First
    requires { (q : AskedEffect) × IsTreatedAnswer false diagram.now q.x q.y q.given (Ok (Answer.Unfixed asked c)) }
    ensures { (q : AskedEffect) → IsTreatedAnswer false diagram.now q.x q.y q.given (Ok (Answer.Unfixed asked c)) → IsFirst diagram.now q result }
{
    let sets = asked.sets;
    if sets.x.count() != 1 {
        return First::Answered(Ok(Answer::Unfixed(asked, c)));
    }
    let joint = sets.y.union(sets.given);
    match identify_formula(alloc, &diagram.observed.graph, sets.x, joint) {
        Ok(FormulaAnswer::Formula(formula)) => First::Found(Identified {
            asked,
            way: Way::Split(formula, Answer::Unfixed(asked, c)),
        }),
        Ok(FormulaAnswer::Hedge(_, _)) => unreachable!(),
        Err(_) => First::Answered(Err(TreatedFault::NoMemory)),
    }
}

/// What is told of the answer for which no counts are read.
pub fn first_reply(
    alloc: Global,
    diagram: &Diagram,
    answer: &Result<Answer, TreatedFault>,
    form: Form,
) -> Result<Reply, AllocError>
    ensures { (q : AskedEffect) → IsAnswered diagram.now q answer.now
        → IfOk result (λ r. Tells treated_telling treated_refusal (IsForDiagram diagram.now q) form diagram.now.observed.names r.outcome (told_of r)) }
{
    reply(alloc, form, &diagram.observed.names, answer)
}
