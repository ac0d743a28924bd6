//! The way by the procedure for effects under a condition.

ghost use Rattle.std.specs.Prelude.{ℕ, ◌<◌, List, Some, IfOk};
ghost use Rattle.mixed_graph.specs.Vocabulary.{has, texts};
ghost use Rattle.do_rules.specs.Vocabulary.{AreThreeSets};
ghost use Rattle.targets.specs.Vocabulary.{AreListedSets};
ghost use Rattle.diagram.specs.Vocabulary.{Names, lent, query_lists};
ghost use Rattle.evaluate_command.specs.Firsts.{IsFirst};
ghost use Rattle.evaluate_command.specs.Ways.{by_condition as way_by_condition};

use crate::answer::Answer;
use crate::first::{First, or_memory};
use crate::identified::Identified;
use conditional_id::{Conditional, identify_given};
use diagram::{Diagram, asked_condition};
use effect_answers::{EffectHedge, has_arrays};
use prob_expr::Target;
use short_formulas::{Candidate, shortened_if};
use std::alloc::{AllocError, Global};
use targets::EffectSets;

/// Identifies the effect of x on y under a condition in the observed graph: a formula for it, or else the answer.
pub fn by_condition(
    alloc: Global,
    diagram: &Diagram,
    x: Option<&[Vec<u8>]>,
    y: Option<&[Vec<u8>]>,
    given: &[Vec<u8>],
    short: bool,
) -> First
    ensures { IsFirst (way_by_condition short (texts given.now)) diagram.now (lent x.entry) (lent y.entry) result }
{
    match asked_condition(alloc, diagram, x, y, Some(given)) {
        Ok(sets) => {
            let target = Target {
                x: sets.x,
                y: sets.y,
                given: sets.given,
            };
            or_memory(find_given(alloc, diagram, target, short))
        }
        Err(fault) => First::Answered(Err(fault)),
    }
}

/// A formula for a target of the observed graph, or a hedge for the joint effect into which it turns.
fn find_given(
    alloc: Global,
    diagram: &Diagram,
    target: Target,
    short: bool,
) -> Result<First, AllocError>
    requires sets { AreThreeSets diagram.now.observed.graph.n (has target.x.bits) (has target.y.bits) (has target.given.bits) }
    requires some { 0 < target.y.bits }
    ensures { (x y : Names) (given : List (List ℕ)) → AreListedSets (query_lists diagram.now.read diagram.now.observed.names x y (Some given)) target.x.bits target.y.bits target.given.bits
        → IfOk result (IsFirst (way_by_condition short given) diagram.now x y) }
{
    let g = &diagram.observed.graph;
    match identify_given(alloc, g, &target)? {
        Conditional::Formula(formula, derivation) => {
            let found = Candidate {
                formula,
                derivation,
            };
            let shown = shortened_if(alloc, g, &target, short, found)?;
            Ok(First::Found(Identified {
                target,
                formula: shown.formula,
            }))
        }
        Conditional::Joint {
            x,
            y,
            settled,
            hedge,
            pair,
        } => {
            has_arrays(&hedge);
            let sets = EffectSets { x, y };
            Ok(First::Answered(Ok(Answer::Joint {
                target,
                settled,
                hedge: EffectHedge { sets, hedge, pair },
            })))
        }
    }
}
