//! The way by adjusting for a set.

ghost use Rattle.std.specs.Prelude.{ℕ, ◌<◌, List, Some, IfOk};
ghost use Rattle.mixed_graph.specs.Vocabulary.{has, texts};
ghost use Rattle.do_rules.specs.Vocabulary.{AreThreeSets};
ghost use Rattle.targets.specs.Vocabulary.{AreSets};
ghost use Rattle.diagram.specs.Vocabulary.{Names, lent, query_lists};
ghost use Rattle.evaluate_command.specs.Firsts.{IsFirst};
ghost use Rattle.evaluate_command.specs.Ways.{by_adjusting as way_by_adjusting};

use crate::answer::Answer;
use crate::first::{First, or_memory};
use crate::identified::Identified;
use adjust_command::{Verdict, judge};
use adjustment::formula_for;
use diagram::{Diagram, asked_query};
use mixed_graph::VSet;
use prob_expr::Target;
use std::alloc::{AllocError, Global};
use targets::{Sets, TargetFault};

/// The adjustment formula of a set for the effect of x on y, where the set meets the criterion in the observed graph; or else what
/// breaks it.
pub fn by_adjusting(
    alloc: Global,
    diagram: &Diagram,
    x: Option<&[Vec<u8>]>,
    y: Option<&[Vec<u8>]>,
    set: &[Vec<u8>],
    by_back_door: bool,
) -> First
    ensures { IsFirst (way_by_adjusting by_back_door (texts set.now)) diagram.now (lent x.entry) (lent y.entry) result }
{
    match asked_query(alloc, diagram, x, y, Some(set)) {
        Ok(sets) => or_memory(find_adjusted(alloc, diagram, sets, by_back_door)),
        Err(fault) => First::Answered(Err(fault)),
    }
}

/// The adjustment formula of a set that meets the criterion, or what breaks it.
fn find_adjusted(
    alloc: Global,
    diagram: &Diagram,
    sets: Sets,
    by_back_door: bool,
) -> Result<First, AllocError>
    requires sets { AreThreeSets diagram.now.observed.graph.n (has sets.x.bits) (has sets.y.bits) (has sets.given.bits) }
    requires some_x { 0 < sets.x.bits }
    requires some_y { 0 < sets.y.bits }
    ensures { (x y : Names) (set : List (List ℕ)) → AreSets (query_lists diagram.now.read diagram.now.observed.names x y (Some set)) sets.x.bits sets.y.bits sets.given.bits
        → IfOk result (IsFirst (way_by_adjusting by_back_door set) diagram.now x y) }
{
    match judge(&diagram.observed.graph, sets, by_back_door) {
        Verdict::Meets => Ok(First::Found(Identified {
            target: Target {
                x: sets.x,
                y: sets.y,
                given: VSet::EMPTY,
            },
            formula: formula_for(alloc, sets.x, sets.y, sets.given)?,
        })),
        Verdict::Breaks(fault) => Ok(First::Answered(Ok(Answer::NotAdmissible(sets, fault)))),
        Verdict::NotOne => Ok(First::Answered(Err(TargetFault::NotOneX))),
    }
}
