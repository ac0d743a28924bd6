//! What is known before counts are read: the question, or the answer.

ghost use Rattle.std.specs.Prelude.{◌≡◌, ◌++◌, IfOk, OnOk};
ghost use Rattle.mixed_graph.specs.Vocabulary.{has, texts, graph_of};
ghost use Rattle.do_rules.specs.Vocabulary.{AreThreeSets, AreFourSets};
ghost use Rattle.targets.specs.Vocabulary.{Lists, AreSets};
ghost use Rattle.diagram.specs.Vocabulary.{lent};
ghost use Rattle.natural_bounds.specs.Vocabulary.{fixed};
ghost use Rattle.answer_json.specs.Vocabulary.{with_members};
ghost use Rattle.bound_values.specs.Vocabulary.{asked_of};
ghost use Rattle.bounds_command.specs.Asking.{BoundLists, of_instruments, of_set, asked_lists, AreNamed};
ghost use Rattle.bounds_command.specs.Ways.{by_instruments as way_by_instruments, by_adjusting as way_by_adjusting};
ghost use Rattle.bounds_command.specs.Requests.{request_of};
ghost use Rattle.bounds_command.specs.Sentences.{refused_text, why_text, refused_members, why_members};
ghost use Rattle.bounds_command.specs.First.{lists_of, IsFirst, IsQuestionOrReply};

use crate::asking::question_of;
use crate::objects::push_asked;
use crate::request::Request;
use crate::way::Way;
use adjust_command::Answer as SetAnswer;
use adjustment::{AdjFault, adjusts};
use answer_json::Object;
use answer_text::{push_set, push_vertex};
use bound_values::{Method, Question};
use diagram::{Diagram, asked_query};
use mixed_graph::{Graph, Names, VSet};
use natural_bounds::{InstrumentFault, instrument};
use replies::{Outcome, Reply, push_open};
use std::alloc::{AllocError, Global};
use targets::{Sets, TargetFault};
use told::{Form, Told, Writing, reply};

/// Why bounds can't be had in the way that is asked for.
#[derive(Drop)]
pub enum Unmet {
    /// The sets of a question are no instrument's.
    NoInstrument(Question, InstrumentFault),
    /// The third set may not be adjusted for: this breaks the adjustment criterion.
    NotAdmissible(Sets, AdjFault),
}

/// What lists ask for.
#[derive(Drop)]
pub enum First {
    /// Bounds of an effect.
    Asked(Question),
    /// The answer: bounds can't be had in this way, or a listed name is at fault.
    Answered(Result<Unmet, TargetFault>),
}

/// What is known before counts are read.
#[derive(Drop)]
pub enum QuestionOrReply {
    /// The reply that tells the answer.
    Replied(Reply),
    /// The sets are an instrument's, or the strata are those of an admissible set.
    Asked(Question),
}

impl Told for Unmet {
    ghost use Rattle.bounds_command.specs.First.{unmet_telling};

    ghost telling = { unmet_telling };

    fn outcome(&self) -> Outcome {
        Outcome::No
    }

    fn text(&self, alloc: Global, names: &Names, writing: Writing) -> Result<Vec<u8>, AllocError> {
        match self {
            Unmet::NoInstrument(question, fault) => refusal(alloc, names, *question, fault),
            Unmet::NotAdmissible(sets, fault) => {
                SetAnswer::NotAdmissible(*sets, *fault).text(alloc, names, writing)
            }
        }
    }

    fn push_members(
        &self,
        object: &mut Object,
        names: &Names,
        writing: Writing,
    ) -> Result<(), AllocError> {
        match self {
            Unmet::NoInstrument(question, fault) => push_refusal(object, names, *question, fault),
            Unmet::NotAdmissible(sets, fault) => {
                SetAnswer::NotAdmissible(*sets, *fault).push_members(object, names, writing)
            }
        }
    }
}

/// The first line: `no instrument: {Z} given {W}`.
fn refused(alloc: Global, names: &Names, question: Question) -> Result<Vec<u8>, AllocError>
    ensures { IfOk result (λ v. v.items ≡ refused_text names.now question) }
{
    let mut text = Vec::from_slice(alloc, b"no instrument: ")?;
    push_set(&mut text, names, question.instruments)?;
    text.extend_from_slice(b" given ")?;
    push_set(&mut text, names, question.fixed())?;
    text.push(b'\n')?;
    Ok(text)
}

/// Appends why: the vertex that x moves, or the open path.
fn push_why(out: &mut Vec<u8>, names: &Names, fault: &InstrumentFault) -> Result<(), AllocError>
    ensures { OnOk result (out.new.items ≡ out.old.items ++ why_text names.now fault.now) }
{
    match fault {
        InstrumentFault::Moved(v) => {
            out.extend_from_slice(b"moved: ")?;
            push_vertex(out, names, *v)?;
            out.push(b'\n')?;
            Ok(())
        }
        InstrumentFault::Open(path) => push_open(out, names, path),
    }
}

/// The member that says why.
fn why_at(object: &mut Object, names: &Names, fault: &InstrumentFault) -> Result<(), AllocError>
    ensures { OnOk result (object.new ≡ with_members (why_members names.now fault.now) object.old) }
{
    match fault {
        InstrumentFault::Moved(v) => object.vertex_at("moved", names, *v),
        InstrumentFault::Open(path) => object.path_at("open", names, path),
    }
}

/// Both lines: the sets, and why they are no instrument's.
fn refusal(
    alloc: Global,
    names: &Names,
    question: Question,
    fault: &InstrumentFault,
) -> Result<Vec<u8>, AllocError>
    ensures { IfOk result (λ v. v.items ≡ refused_text names.now question ++ why_text names.now fault.now) }
{
    let mut text = refused(alloc, names, question)?;
    push_why(&mut text, names, fault)?;
    Ok(text)
}

/// The same as members.
fn push_refusal(
    object: &mut Object,
    names: &Names,
    question: Question,
    fault: &InstrumentFault,
) -> Result<(), AllocError>
    ensures { OnOk result (object.new ≡ with_members (refused_members names.now question ++ why_members names.now fault.now) object.old) }
{
    object.word_at("answer", "no instrument")?;
    push_asked(object, names, question)?;
    why_at(object, names, fault)
}

/// The question of a request that asks for bounds in the observed graph; or else the reply. The only error is want of memory.
pub fn ask_first(
    alloc: Global,
    diagram: &Diagram,
    asked: &Request<'_>,
) -> Result<QuestionOrReply, AllocError>
    ensures { IfOk result (IsQuestionOrReply diagram.now (request_of asked.now)) }
{
    match first_of(alloc, diagram, asked) {
        First::Asked(question) => Ok(QuestionOrReply::Asked(question)),
        First::Answered(answer) => {
            let form = Form::plain(asked.format);
            let reply = reply(alloc, form, &diagram.observed.names, &answer)?;
            Ok(QuestionOrReply::Replied(reply))
        }
    }
}

/// What the lists of a request ask for in the observed graph, in the way that is asked for.
fn first_of(alloc: Global, diagram: &Diagram, asked: &Request<'_>) -> First
    ensures { IsFirst (graph_of diagram.now.observed.graph) (lists_of (request_of asked.now) diagram.now) result }
{
    let (x, y) = (asked.x.as_deref(), asked.y.as_deref());
    match &asked.way {
        Way::Instruments {
            given,
            instruments,
            strata,
        } => by_instruments(
            alloc,
            diagram,
            x,
            y,
            given.as_slice(),
            instruments.as_slice(),
            strata.as_slice(),
        ),
        Way::Adjusting { set } => by_adjusting(alloc, diagram, x, y, set.as_slice()),
    }
}

/// Bounds by instruments, where the sets are an instrument's.
fn by_instruments(
    alloc: Global,
    diagram: &Diagram,
    x: Option<&[Vec<u8>]>,
    y: Option<&[Vec<u8>]>,
    given: &[Vec<u8>],
    instruments: &[Vec<u8>],
    strata: &[Vec<u8>],
) -> First
    ensures { IsFirst (graph_of diagram.now.observed.graph)
        (asked_lists (way_by_instruments (texts given.now) (texts instruments.now) (texts strata.now)) diagram.now (lent x.entry) (lent y.entry)) result }
{
    match question_of(alloc, diagram, x, y, given, instruments, strata) {
        Ok(question) => by_instrument(&diagram.observed.graph, question),
        Err(fault) => First::Answered(Err(fault)),
    }
}

/// The question, where its sets are an instrument's; or why they are none.
fn by_instrument(graph: &Graph, question: Question) -> First
    requires { AreFourSets graph.now.n (asked_of question).x (asked_of question).y (asked_of question).z (fixed (asked_of question)) }
    ensures { (l : BoundLists) → AreNamed l question → IsFirst (graph_of graph.now) (of_instruments l) result }
{
    let Question {
        x,
        y,
        instruments,
        ..
    } = question;
    match instrument(graph, x, y, instruments, question.fixed()) {
        Ok(()) => First::Asked(question),
        Err(fault) => First::Answered(Ok(Unmet::NoInstrument(question, fault))),
    }
}

/// Bounds by adjusting for a set, where it is admissible.
fn by_adjusting(
    alloc: Global,
    diagram: &Diagram,
    x: Option<&[Vec<u8>]>,
    y: Option<&[Vec<u8>]>,
    set: &[Vec<u8>],
) -> First
    ensures { IsFirst (graph_of diagram.now.observed.graph) (asked_lists (way_by_adjusting (texts set.now)) diagram.now (lent x.entry) (lent y.entry)) result }
{
    match asked_query(alloc, diagram, x, y, Some(set)) {
        Ok(sets) => by_set(&diagram.observed.graph, sets),
        Err(fault) => First::Answered(Err(fault)),
    }
}

/// The question whose strata are those of the third set, where it is admissible; or why it isn't.
fn by_set(graph: &Graph, sets: Sets) -> First
    requires { AreThreeSets graph.now.n (has sets.x.bits) (has sets.y.bits) (has sets.given.bits) }
    ensures { (l : Lists) → AreSets l sets.x.bits sets.y.bits sets.given.bits → IsFirst (graph_of graph.now) (of_set l) result }
{
    match adjusts(graph, sets.x, sets.y, sets.given) {
        Ok(()) => First::Asked(Question {
            x: sets.x,
            y: sets.y,
            given: VSet::EMPTY,
            instruments: VSet::EMPTY,
            strata: sets.given,
            method: Method::Adjustment,
        }),
        Err(fault) => First::Answered(Ok(Unmet::NotAdmissible(sets, fault))),
    }
}
