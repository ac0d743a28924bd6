//! The answer of `identify`.

ghost use Rattle.std.specs.Prelude.{◌<◌, false, IfOk, IfErr};
ghost use Rattle.mixed_graph.specs.Vocabulary.{has, Within, Apart, graph_of};
ghost use Rattle.targets.specs.Vocabulary.{OrMemory, IsEffectFault};
ghost use Rattle.diagram.specs.Vocabulary.{effect_lists};
ghost use Rattle.replies.specs.Vocabulary.{told_of};
ghost use Rattle.told.specs.Vocabulary.{target_refusal, Tells, is_certified};
ghost use Rattle.identify_command.specs.Forms.{told_form};
ghost use Rattle.identify_command.specs.Requests.{request_of};
ghost use Rattle.identify_command.specs.Right.{DecidesEffect, IsForEffect, IsAnswerFor, IsFaultFor, IsIdentifyAnswer, asked_of};
ghost use Rattle.identify_command.specs.Telling.{identify_telling};

use crate::answer::Answer;
use crate::conditional::conditional_answer;
use crate::request::Request;
use diagram::{Diagram, asked_effect};
use effect_answers::{EffectFormula, EffectHedge, has_arrays, has_short_steps, target_of};
use identify::{Answer as Derived, FormulaAnswer, identify, identify_formula};
use mixed_graph::Graph;
use replies::Reply;
use short_formulas::{Candidate, shortened_if};
use std::alloc::{AllocError, Global};
use targets::{EffectSets, TargetFault};
use told::reply;

/// What is told of an effect.
pub fn identify_reply(
    alloc: Global,
    diagram: &Diagram,
    asked: &Request<'_>,
) -> Result<Reply, AllocError>
    ensures { let q = request_of asked.now in IfOk result (λ r. Tells identify_telling target_refusal
        (IsIdentifyAnswer q.form.short (is_certified q.form.writing) diagram.now q.x q.y q.given) (told_form q.form) diagram.now.observed.names r.outcome (told_of r)) }
{
    let answer = identify_answer(alloc, diagram, asked);
    reply(alloc, asked.form.told(), &diagram.observed.names, &answer)
}

/// Whether P(y | do(x), given) can be computed from observations, in the observed graph (Shpitser and Pearl 2006):
/// a formula for it, or a hedge. Where nothing is given the hedge shows that there is no formula, else that there
/// is none for the joint effect into which the target turns.
///
/// A list that is missing is that of the exposures or of the outcomes, or empty for what is given.
pub fn identify_answer(
    alloc: Global,
    diagram: &Diagram,
    asked: &Request<'_>,
) -> Result<Answer, TargetFault>
    ensures answer { let q = request_of asked.now in
        IfOk result (IsAnswerFor q.form.short (is_certified q.form.writing) (graph_of diagram.now.observed.graph) (asked_of diagram.now q.x q.y q.given)) }
    ensures fault { let q = request_of asked.now in IfErr result (OrMemory (IsFaultFor (asked_of diagram.now q.x q.y q.given))) }
{
    let Some(given) = asked.given.as_deref() else {
        return effect_answer(alloc, diagram, asked);
    };
    if given.is_empty() {
        return effect_answer(alloc, diagram, asked);
    }
    conditional_answer(alloc, diagram, asked, given)
}

/// The answer where nothing is given.
fn effect_answer(
    alloc: Global,
    diagram: &Diagram,
    asked: &Request<'_>,
) -> Result<Answer, TargetFault>
    ensures answer { let q = request_of asked.now in
        IfOk result (IsForEffect q.form.short (is_certified q.form.writing) (graph_of diagram.now.observed.graph) (effect_lists diagram.now.read diagram.now.observed.names q.x q.y)) }
    ensures fault { let q = request_of asked.now in IfErr result (OrMemory (IsEffectFault (effect_lists diagram.now.read diagram.now.observed.names q.x q.y))) }
{
    let (x, y) = (asked.x.as_deref(), asked.y.as_deref());
    let sets = asked_effect(alloc, diagram, x, y)?;
    let g = &diagram.observed.graph;
    let Ok(answer) = decide(
        alloc,
        g,
        sets,
        asked.form.short,
        asked.form.writing.is_certified(),
    ) else {
        return Err(TargetFault::NoMemory);
    };
    Ok(answer)
}

/// The answer for sets of a graph, by a short formula, and with its derivation, where these are asked for.
fn decide(
    alloc: Global,
    g: &Graph,
    sets: EffectSets,
    short: bool,
    certified: bool,
) -> Result<Answer, AllocError>
    requires x { Within g.now.n (has sets.x.bits) }
    requires y { Within g.now.n (has sets.y.bits) }
    requires apart { Apart (has sets.x.bits) (has sets.y.bits) }
    requires some { 0 < sets.y.bits }
    ensures { IfOk result (DecidesEffect short certified (graph_of g.now) sets) }
{
    if short {
        return decide_derived(alloc, g, sets, short, certified);
    }
    if certified {
        return decide_derived(alloc, g, sets, short, certified);
    }
    decide_alone(alloc, g, sets)
}

/// The answer by the procedure's formula alone.
fn decide_alone(alloc: Global, g: &Graph, sets: EffectSets) -> Result<Answer, AllocError>
    requires x { Within g.now.n (has sets.x.bits) }
    requires y { Within g.now.n (has sets.y.bits) }
    requires apart { Apart (has sets.x.bits) (has sets.y.bits) }
    requires some { 0 < sets.y.bits }
    ensures { IfOk result (DecidesEffect false false (graph_of g.now) sets) }
{
    match identify_formula(alloc, g, sets.x, sets.y)? {
        FormulaAnswer::Formula(formula) => {
            let target = target_of(sets);
            Ok(Answer::Formula(EffectFormula {
                target,
                formula,
                derivation: None,
            }))
        }
        FormulaAnswer::Hedge(hedge, pair) => {
            has_arrays(&hedge);
            Ok(Answer::Hedge(EffectHedge { sets, hedge, pair }))
        }
    }
}

/// The answer by a formula with its derivation, which a short formula and a certificate ask for.
fn decide_derived(
    alloc: Global,
    g: &Graph,
    sets: EffectSets,
    short: bool,
    certified: bool,
) -> Result<Answer, AllocError>
    requires x { Within g.now.n (has sets.x.bits) }
    requires y { Within g.now.n (has sets.y.bits) }
    requires apart { Apart (has sets.x.bits) (has sets.y.bits) }
    requires some { 0 < sets.y.bits }
    ensures { IfOk result (DecidesEffect short certified (graph_of g.now) sets) }
{
    match identify(alloc, g, sets.x, sets.y)? {
        Derived::Formula(formula, derivation) => {
            let found = Candidate {
                formula,
                derivation,
            };
            let target = target_of(sets);
            let shown = shortened_if(alloc, g, &target, short, found)?;
            has_short_steps(&shown.derivation);
            Ok(Answer::Formula(EffectFormula {
                target,
                formula: shown.formula,
                derivation: Some(shown.derivation),
            }))
        }
        Derived::Hedge(hedge, pair) => {
            has_arrays(&hedge);
            Ok(Answer::Hedge(EffectHedge { sets, hedge, pair }))
        }
    }
}
