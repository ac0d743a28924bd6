//! The answer of `survey`.

ghost use Rattle.std.specs.Prelude.{[], IfOk};
ghost use Rattle.replies.specs.Vocabulary.{told_of};
ghost use Rattle.told.specs.Vocabulary.{plain_form, target_refusal, Tells};
ghost use Rattle.survey_command.specs.Drawn.{drawn_graph};
ghost use Rattle.survey_command.specs.Requests.{request_of};
ghost use Rattle.survey_command.specs.Right.{IsSurvey, IsSurveyAnswer};
ghost use Rattle.survey_command.specs.Telling.{survey_telling};

use crate::answer::Survey;
use crate::random_graph::{bidirected_count, directed_count, survey_graph};
use crate::request::Request;
use crate::tally::Tally;
use mixed_graph::Names;
use replies::Reply;
use std::alloc::{AllocError, Global};
use told::{Form, tell};

/// What is told of a survey.
pub fn survey_reply(alloc: Global, asked: &Request) -> Result<Reply, AllocError>
    ensures { let q = request_of asked.now in
        IfOk result (λ r. Tells survey_telling target_refusal (IsSurveyAnswer q.seed) (plain_form q.format) [] r.outcome (told_of r)) }
{
    let answer = survey(alloc, asked.seed)?;
    let names = Names::empty(alloc);
    tell(alloc, Form::plain(asked.format), &names, &answer)
}

/// Of how many ordered pairs of two vertices the effect of the first on the second can be computed from observations, in the survey graph of a
/// seed.
pub fn survey(alloc: Global, seed: u64) -> Result<Survey, AllocError>
    ensures { IfOk result (IsSurvey seed (drawn_graph seed)) }
{
    let graph = survey_graph(seed);
    let tally = Tally::of_graph(alloc, &graph)?;
    Ok(Survey {
        seed,
        vertices: graph.n,
        directed: directed_count(&graph),
        bidirected: bidirected_count(&graph),
        tally,
    })
}
