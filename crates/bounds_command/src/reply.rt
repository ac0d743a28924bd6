//! The answer of `bounds`.

ghost use Rattle.std.specs.Prelude.{ℕ, ◌≡◌, ◌<◌, ◌≤◌, Bool, List, Option, Ok, IfOk, OnOk, length, option_map};
ghost use Rattle.count_rows.specs.Vocabulary.{Field};
ghost use Rattle.replies.specs.declared.format.Format.{Format as AskedFormat};
ghost use Rattle.replies.specs.Vocabulary.{told_of};
ghost use Rattle.bound_values.specs.declared.questions.Question.{Question as AskedQuestion};
ghost use Rattle.mixed_graph.specs.Vocabulary.{MixedGraph, graph_of};
ghost use Rattle.told.specs.Vocabulary.{plain_form, outcome_in, told_in};
ghost use Rattle.bounds_command.specs.BoundsTelling.{bounds_telling};
ghost use Rattle.bounds_command.specs.Faults.{bounds_refusal};
ghost use Rattle.bounds_command.specs.Right.{IsKnown, CountsAnswer};

use crate::answer::Answer;
use crate::deciding::answer_over;
use crate::faults::refuse_bounds;
use bound_values::Question;
use count_json::count_size;
use count_rows::CountFault;
use diagram::Diagram;
use mixed_graph::Names;
use replies::{Format, Outcome, Reply};
use std::alloc::{AllocError, Global};
use targets::TargetFault;
use told::{Form, reply};

/// What is told of the bounds of the effect that a question asks for, from counts in CSV; refused counts are answered with their line. The
/// only error is want of memory.
pub fn bounds_reply(
    alloc: Global,
    diagram: &Diagram,
    question: Question,
    count: Option<&[u8]>,
    exact: bool,
    bytes: &[u8],
    format: Format,
) -> Result<Reply, AllocError>
    requires known { IsKnown (graph_of diagram.now.observed.graph) diagram.now.observed.names question }
    requires small { length bytes.now ≤ 67108864 }
    ensures { IfOk result (λ r. CountsAnswer format exact (graph_of diagram.now.observed.graph) diagram.now.observed.names question (option_map (λ s. s.now) count.entry) bytes.now r.outcome (told_of r)) }
{
    let names = &diagram.observed.names;
    match answer_over(alloc, &diagram.observed, question, exact, count, bytes) {
        Ok(answer) => tell(alloc, format, names, answer),
        Err(fault) => refuse_bounds(alloc, names, &fault),
    }
}

/// What is told of an answer.
fn tell(alloc: Global, format: Format, names: &Names, answer: Answer) -> Result<Reply, AllocError>
    ensures outcome { IfOk result (λ r. r.outcome ≡ bounds_telling.outcome answer) }
    ensures told { IfOk result (λ r. told_of r ≡ told_in bounds_telling (bounds_refusal names.now) (plain_form format) names.now (Ok answer)) }
{
    let whole: Result<Answer, TargetFault> = Ok(answer);
    reply(alloc, Form::plain(format), names, &whole)
}

/// The answer where there are more than 67,108,864 bytes of counts. The only error is want of memory.
pub fn long_counts(alloc: Global) -> Result<Reply, AllocError>
    ensures { IfOk result (λ r. (format : AskedFormat) (exact : Bool) (g : MixedGraph) (names : List (List ℕ)) (q : AskedQuestion) (count : Option Field) (bytes : List ℕ) → 67108864 < length bytes
        → CountsAnswer format exact g names q count bytes r.outcome (told_of r)) }
{
    Ok(Reply {
        outcome: Outcome::Second,
        text: CountFault::size_line(alloc)?,
        object: count_size(alloc)?,
    })
}
