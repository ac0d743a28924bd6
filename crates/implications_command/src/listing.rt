//! The answer without counts.

ghost use Rattle.std.specs.Prelude.{◌≡◌, None, IfOk, IfSome, IfNone};
ghost use Rattle.mixed_graph.specs.Vocabulary.{graph_of};
ghost use Rattle.replies.specs.Vocabulary.{told_of};
ghost use Rattle.told.specs.Vocabulary.{plain_form, target_refusal, Tells};
ghost use Rattle.implications_command.specs.Pairs.{ArePairs, pairs_in};
ghost use Rattle.implications_command.specs.Right.{HasNoPairs, Lists, IsForGraph};
ghost use Rattle.implications_command.specs.Telling.{implications_telling};
ghost use Rattle.implications_command.specs.Firsts.{IsPairsOrReply};

use crate::answer::Answer;
use dag_reader::ReadGraph;
use diagram::Diagram;
use implications::{Implication, implications};
use replies::{Format, Reply};
use std::alloc::{AllocError, Global};
use told::{Form, tell};

/// What is known before counts are read.
#[derive(Drop)]
pub enum PairsOrReply {
    /// The answer: no set separates any two vertices.
    Replied(Reply),
    /// There are pairs, each with a set that separates it.
    Pairs(Vec<Implication>),
}

/// The pairs of an observed graph that some set separates, if there is one. The only error is want of memory.
fn found_pairs(alloc: Global, seen: &ReadGraph) -> Result<Option<Vec<Implication>>, AllocError>
    ensures found { IfOk result (λ o. IfSome o (λ list. ArePairs (pairs_in seen.now list.items))) }
    ensures none { IfOk result (λ o. IfNone o (HasNoPairs (graph_of seen.now.graph))) }
{
    let list = implications(alloc, &seen.graph)?;
    if list.is_empty() {
        return Ok(None);
    }
    Ok(Some(list))
}

/// The pairs of the observed graph, or that there is none. The only error is want of memory.
pub fn pairs_answer(alloc: Global, diagram: &Diagram) -> Result<Answer, AllocError>
    ensures { IfOk result (Lists diagram.now.observed) }
{
    match found_pairs(alloc, &diagram.observed)? {
        Some(list) => Ok(Answer::Pairs(list)),
        None => Ok(Answer::NoPairs),
    }
}

/// What is told of them without counts.
pub fn pairs_reply(alloc: Global, diagram: &Diagram, format: Format) -> Result<Reply, AllocError>
    ensures { IfOk result (λ r. Tells implications_telling target_refusal (IsForGraph None diagram.now.observed) (plain_form format)
        diagram.now.observed.names r.outcome (told_of r)) }
{
    let answer = pairs_answer(alloc, diagram)?;
    tell(alloc, Form::plain(format), &diagram.observed.names, &answer)
}

/// The pairs whose differences are asked for, or what is told where there is none. The only error is want of memory.
pub fn counted_pairs(
    alloc: Global,
    diagram: &Diagram,
    format: Format,
) -> Result<PairsOrReply, AllocError>
    ensures { IfOk result (IsPairsOrReply format diagram.now.observed) }
{
    match found_pairs(alloc, &diagram.observed)? {
        Some(list) => Ok(PairsOrReply::Pairs(list)),
        None => {
            let reply = tell(
                alloc,
                Form::plain(format),
                &diagram.observed.names,
                &Answer::NoPairs,
            )?;
            Ok(PairsOrReply::Replied(reply))
        }
    }
}
