//! Answers where something is given.

ghost use Rattle.std.specs.Prelude.{◌<◌, Some, IfOk, IfErr};
ghost use Rattle.mixed_graph.specs.Vocabulary.{has, texts, graph_of};
ghost use Rattle.do_rules.specs.Vocabulary.{AreThreeSets};
ghost use Rattle.prob_expr.specs.Vocabulary.{target_view};
ghost use Rattle.targets.specs.Vocabulary.{OrMemory, IsListFault};
ghost use Rattle.diagram.specs.Vocabulary.{query_lists};
ghost use Rattle.told.specs.Vocabulary.{is_certified};
ghost use Rattle.identify_command.specs.Requests.{request_of};
ghost use Rattle.identify_command.specs.Right.{DecidesTarget, IsForTarget};

use crate::answer::Answer;
use crate::request::Request;
use conditional_id::{Conditional, identify_given};
use diagram::{Diagram, asked_condition};
use effect_answers::{EffectFormula, EffectHedge, has_arrays, has_short_steps};
use mixed_graph::Graph;
use prob_expr::Target;
use short_formulas::{Candidate, shortened_if};
use std::alloc::{AllocError, Global};
use targets::{EffectSets, TargetFault};

/// Whether P(y | do(x), given) can be computed from observations, in the observed graph.
pub fn conditional_answer(
    alloc: Global,
    diagram: &Diagram,
    asked: &Request<'_>,
    given: &[Vec<u8>],
) -> Result<Answer, TargetFault>
    ensures answer { let q = request_of asked.now in
        IfOk result (IsForTarget q.form.short (is_certified q.form.writing) (graph_of diagram.now.observed.graph) (query_lists diagram.now.read diagram.now.observed.names q.x q.y (Some (texts given.now)))) }
    ensures fault { let q = request_of asked.now in IfErr result (OrMemory (IsListFault (query_lists diagram.now.read diagram.now.observed.names q.x q.y (Some (texts given.now))))) }
{
    let (x, y) = (asked.x.as_deref(), asked.y.as_deref());
    let sets = asked_condition(alloc, diagram, x, y, Some(given))?;
    let target = Target {
        x: sets.x,
        y: sets.y,
        given: sets.given,
    };
    let g = &diagram.observed.graph;
    let Ok(answer) = decide_given(
        alloc,
        g,
        target,
        asked.form.short,
        asked.form.writing.is_certified(),
    ) else {
        return Err(TargetFault::NoMemory);
    };
    Ok(answer)
}

/// The answer for a target in a graph, by a short formula where that is asked for.
fn decide_given(
    alloc: Global,
    g: &Graph,
    target: Target,
    short: bool,
    certified: bool,
) -> Result<Answer, AllocError>
    requires sets { AreThreeSets g.now.n (has target.x.bits) (has target.y.bits) (has target.given.bits) }
    requires some { 0 < target.y.bits }
    ensures { IfOk result (DecidesTarget short certified (graph_of g.now) (target_view target)) }
{
    match identify_given(alloc, g, &target)? {
        Conditional::Formula(formula, derivation) => {
            let found = Candidate {
                formula,
                derivation,
            };
            let shown = shortened_if(alloc, g, &target, short, found)?;
            has_short_steps(&shown.derivation);
            Ok(Answer::Formula(EffectFormula {
                target,
                formula: shown.formula,
                derivation: Some(shown.derivation),
            }))
        }
        Conditional::Joint {
            x,
            y,
            settled,
            hedge,
            pair,
        } => {
            has_arrays(&hedge);
            let sets = EffectSets { x, y };
            Ok(Answer::Joint {
                target,
                settled,
                hedge: EffectHedge { sets, hedge, pair },
            })
        }
    }
}
