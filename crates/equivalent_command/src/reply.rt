//! The answer of `equivalent`.

ghost use Rattle.std.specs.Prelude.{◌≡◌, ◌≤◌, ◌<◌, ℕ, false, List, Option, IfOk, IfErr, IfSome, IfNone, length};
ghost use Rattle.diagram.specs.declared.diagram.Diagram.{Diagram as First};
ghost use Rattle.targets.specs.declared.query.Sets.{Sets as AskedSets};
ghost use Rattle.mixed_graph.specs.Vocabulary.{graph_of};
ghost use Rattle.markov_equivalence.specs.Vocabulary.{HasArrowsAlone};
ghost use Rattle.replies.specs.Vocabulary.{told_of};
ghost use Rattle.told.specs.declared.form.Form.{Form as AskedForm};
ghost use Rattle.told.specs.Vocabulary.{plain_form, Tells};
ghost use Rattle.equivalent_command.specs.Requests.{Query as AskedQuery};
ghost use Rattle.equivalent_command.specs.Queries.{AreBelow};
ghost use Rattle.equivalent_command.specs.Numbers.{HaveSameNames, on_names};
ghost use Rattle.equivalent_command.specs.Right.{IsAcceptedFirst, AreComparable, Decides, ObservedFault, IsForText, IsSecondFault, IsForSecond};
ghost use Rattle.equivalent_command.specs.SecondFaults.{is_memory, second_refusal};
ghost use Rattle.equivalent_command.specs.Telling.{equivalent_telling};

use crate::agreement::agreement;
use crate::answer::Answer;
use crate::faults::{bidirected_fault, names_fault};
use crate::numbers::graph_on;
use crate::second::SecondFault;
use dag_reader::{ReadGraph, read_graph};
use diagram::Diagram;
use markov_equivalence::{Compared, compare};
use mixed_graph::Names;
use replies::{Format, Reply};
use std::alloc::{AllocError, Global};
use targets::{Sets, TargetFault};
use told::{Form, Refuses, reply};

/// What is told of a first diagram that was accepted with the sets that are asked about, and of the bytes of a second graph.
pub fn equivalent_reply(
    alloc: Global,
    diagram: &Diagram,
    sets: Option<Sets>,
    second: &[u8],
    format: Format,
) -> Result<Reply, AllocError>
    requires accepted { (query : Option AskedQuery) × IsAcceptedFirst diagram.now query sets }
    requires small { length second.now ≤ 1048576 }
    ensures { IfOk result (λ r. Tells equivalent_telling second_refusal (IsForSecond diagram.now.observed sets second.now) (plain_form format)
        diagram.now.observed.names r.outcome (told_of r)) }
{
    let answer = equivalent_answer(alloc, diagram, sets, second);
    reply(alloc, Form::plain(format), &diagram.observed.names, &answer)
}

/// What is told where the second graph's text has more than 1,048,576 bytes.
pub fn long_second_graph(alloc: Global) -> Result<Reply, AllocError>
    ensures { IfOk result (λ r. (form : AskedForm) (first : First) (sets : Option AskedSets) (second : List ℕ) → 1048576 < length second
        → Tells equivalent_telling second_refusal (IsForSecond first.observed sets second) form first.observed.names r.outcome (told_of r)) }
{
    SecondFault::TooLong.refuse(alloc)
}

/// Whether the two graphs imply the same separations, and what both say of the sets that are asked about.
pub fn equivalent_answer<'a>(
    alloc: Global,
    diagram: &Diagram,
    sets: Option<Sets>,
    second: &'a [u8],
) -> Result<Answer, SecondFault<'a>>
    requires accepted { (query : Option AskedQuery) × IsAcceptedFirst diagram.now query sets }
    requires small { length second.now ≤ 1048576 }
    ensures answer { IfOk result (IsForText diagram.now.observed sets second.now) }
    ensures fault { IfErr result (λ fault. is_memory fault ≡ false → IsSecondFault diagram.now.observed second.now fault) }
{
    match read_graph(alloc, second) {
        Ok(read) => {
            let other = Diagram::of(alloc, read)?;
            match second_fault(alloc, &diagram.observed.names, &other.observed)? {
                Some(fault) => Err(SecondFault::Unlike(fault)),
                None => Ok(compared(&diagram.observed, &other.observed, sets)),
            }
        }
        Err(fault) => Err(SecondFault::Faulty(second, fault)),
    }
}

/// What is wrong with the second observed graph: a bidirected edge, or else a name that one of the graphs has alone.
fn second_fault(
    alloc: Global,
    names: &Names,
    second: &ReadGraph,
) -> Result<Option<TargetFault>, AllocError>
    ensures found { IfOk result (λ o. IfSome o (ObservedFault names.now (graph_of second.now.graph) second.now.names)) }
    ensures arrows { IfOk result (λ o. IfNone o (HasArrowsAlone (graph_of second.now.graph))) }
    ensures names { IfOk result (λ o. IfNone o (HaveSameNames names.now second.now.names)) }
{
    match bidirected_fault(alloc, second)? {
        Some(fault) => Ok(Some(fault)),
        None => names_fault(alloc, names, &second.names),
    }
}

/// The answer of two observed graphs that can be compared.
fn compared(first: &ReadGraph, second: &ReadGraph, sets: Option<Sets>) -> Answer
    requires comparable { AreComparable first.now second.now }
    requires below { IfSome sets (AreBelow (length first.now.names)) }
    ensures { Decides (graph_of first.now.graph) (on_names first.now.names second.now.names (graph_of second.now.graph)) sets result }
{
    let moved = graph_on(&first.names, second);
    match compare(&first.graph, &moved) {
        Compared::Same => agreement(&first.graph, &moved, sets),
        Compared::Edge(d) => Answer::Edge(d),
        Compared::Collider(d, m) => Answer::Collider(d, m),
    }
}
