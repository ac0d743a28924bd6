//! The way by the identification procedure.

ghost use Rattle.std.specs.Prelude.{◌<◌, true, false, IfOk};
ghost use Rattle.mixed_graph.specs.Vocabulary.{has, Within, Apart};
ghost use Rattle.targets.specs.Vocabulary.{AreEffectSets};
ghost use Rattle.diagram.specs.Vocabulary.{Names, lent, effect_lists};
ghost use Rattle.evaluate_command.specs.Firsts.{IsFirst};
ghost use Rattle.evaluate_command.specs.Ways.{by_procedure as way_by_procedure};

use crate::answer::Answer;
use crate::first::{First, or_memory};
use crate::identified::Identified;
use diagram::{Diagram, asked_effect};
use effect_answers::{EffectHedge, has_arrays};
use identify::{Answer as Derived, FormulaAnswer, identify, identify_formula};
use mixed_graph::VSet;
use prob_expr::Target;
use short_formulas::{Candidate, shortened};
use std::alloc::{AllocError, Global};
use targets::EffectSets;

/// Identifies the effect of x on y in the observed graph: a formula for it, or else the answer.
pub fn by_procedure(
    alloc: Global,
    diagram: &Diagram,
    x: Option<&[Vec<u8>]>,
    y: Option<&[Vec<u8>]>,
    short: bool,
) -> First
    ensures { IsFirst (way_by_procedure short) diagram.now (lent x.entry) (lent y.entry) result }
{
    match asked_effect(alloc, diagram, x, y) {
        Ok(sets) => or_memory(find_formula(alloc, diagram, sets, short)),
        Err(fault) => First::Answered(Err(fault)),
    }
}

/// A formula for the effect of sets of the observed graph, or a hedge.
fn find_formula(
    alloc: Global,
    diagram: &Diagram,
    sets: EffectSets,
    short: bool,
) -> Result<First, AllocError>
    requires x { Within diagram.now.observed.graph.n (has sets.x.bits) }
    requires y { Within diagram.now.observed.graph.n (has sets.y.bits) }
    requires apart { Apart (has sets.x.bits) (has sets.y.bits) }
    requires some { 0 < sets.y.bits }
    ensures { (x y : Names) → AreEffectSets (effect_lists diagram.now.read diagram.now.observed.names x y) sets.x.bits sets.y.bits
        → IfOk result (IsFirst (way_by_procedure short) diagram.now x y) }
{
    if short {
        return short_formula(alloc, diagram, sets);
    }
    first_formula(alloc, diagram, sets)
}

/// The formula of the procedure, whose derivation isn't asked for.
fn first_formula(alloc: Global, diagram: &Diagram, sets: EffectSets) -> Result<First, AllocError>
    requires x { Within diagram.now.observed.graph.n (has sets.x.bits) }
    requires y { Within diagram.now.observed.graph.n (has sets.y.bits) }
    requires apart { Apart (has sets.x.bits) (has sets.y.bits) }
    requires some { 0 < sets.y.bits }
    ensures { (x y : Names) → AreEffectSets (effect_lists diagram.now.read diagram.now.observed.names x y) sets.x.bits sets.y.bits
        → IfOk result (IsFirst (way_by_procedure false) diagram.now x y) }
{
    match identify_formula(alloc, &diagram.observed.graph, sets.x, sets.y)? {
        FormulaAnswer::Formula(formula) => Ok(First::Found(Identified {
            target: Target {
                x: sets.x,
                y: sets.y,
                given: VSet::EMPTY,
            },
            formula,
        })),
        FormulaAnswer::Hedge(hedge, pair) => {
            has_arrays(&hedge);
            Ok(First::Answered(Ok(Answer::Hedge(EffectHedge { sets, hedge, pair }))))
        }
    }
}

/// A formula that is no longer than the procedure's, found by its derivation.
fn short_formula(alloc: Global, diagram: &Diagram, sets: EffectSets) -> Result<First, AllocError>
    requires x { Within diagram.now.observed.graph.n (has sets.x.bits) }
    requires y { Within diagram.now.observed.graph.n (has sets.y.bits) }
    requires apart { Apart (has sets.x.bits) (has sets.y.bits) }
    requires some { 0 < sets.y.bits }
    ensures { (x y : Names) → AreEffectSets (effect_lists diagram.now.read diagram.now.observed.names x y) sets.x.bits sets.y.bits
        → IfOk result (IsFirst (way_by_procedure true) diagram.now x y) }
{
    let g = &diagram.observed.graph;
    match identify(alloc, g, sets.x, sets.y)? {
        Derived::Formula(formula, derivation) => {
            let target = Target {
                x: sets.x,
                y: sets.y,
                given: VSet::EMPTY,
            };
            let found = Candidate {
                formula,
                derivation,
            };
            let shown = shortened(alloc, g, &target, found)?;
            Ok(First::Found(Identified {
                target,
                formula: shown.formula,
            }))
        }
        Derived::Hedge(hedge, pair) => {
            has_arrays(&hedge);
            Ok(First::Answered(Ok(Answer::Hedge(EffectHedge { sets, hedge, pair }))))
        }
    }
}
