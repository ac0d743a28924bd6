//! What either criterion says of the set that is asked about.

ghost use Rattle.std.specs.Prelude.{◌<◌, true, IfOk, IfErr};
ghost use Rattle.mixed_graph.specs.Vocabulary.{has, graph_of};
ghost use Rattle.do_rules.specs.Vocabulary.{AreThreeSets};
ghost use Rattle.adjust_command.specs.Right.{Judges, IsNotJudged};
ghost use Rattle.adjust_command.specs.Verdicts.{IsVerdict};

use crate::answer::Answer;
use adjustment::{AdjFault, adjusts, back_door};
use mixed_graph::{Graph, VSet};
use targets::{Sets, TargetFault};

/// What a criterion says of a set.
#[derive(Clone, Copy)]
pub enum Verdict {
    /// The set meets the criterion, so that its formula is the effect.
    Meets,
    /// This breaks the criterion.
    Breaks(AdjFault),
    /// The exposures aren't one vertex, for the back-door criterion.
    NotOne,
}

/// What the adjustment criterion says of the set `given`, or the back-door criterion, for which the exposures are one vertex.
pub fn judge(graph: &Graph, sets: Sets, by_back_door: bool) -> Verdict
    requires sets { AreThreeSets graph.now.n (has sets.x.bits) (has sets.y.bits) (has sets.given.bits) }
    requires some { 0 < sets.x.bits }
    ensures { IsVerdict by_back_door (graph_of graph.now) sets.x.bits sets.y.bits sets.given.bits result }
{
    if by_back_door {
        return back_door_verdict(graph, sets);
    }
    match adjusts(graph, sets.x, sets.y, sets.given) {
        Ok(()) => Verdict::Meets,
        Err(fault) => Verdict::Breaks(fault),
    }
}

/// What the back-door criterion says.
fn back_door_verdict(graph: &Graph, sets: Sets) -> Verdict
    requires sets { AreThreeSets graph.now.n (has sets.x.bits) (has sets.y.bits) (has sets.given.bits) }
    requires some { 0 < sets.x.bits }
    ensures { IsVerdict true (graph_of graph.now) sets.x.bits sets.y.bits sets.given.bits result }
{
    let v = sets.x.lowest();
    if sets.x.bits != VSet::one(v).bits {
        return Verdict::NotOne;
    }
    match back_door(graph, v, sets.y, sets.given) {
        Ok(()) => Verdict::Meets,
        Err(fault) => Verdict::Breaks(fault),
    }
}

/// The answer by one of the two criteria; the exposures may not be one vertex.
pub fn by_criterion(graph: &Graph, sets: Sets, by_back_door: bool) -> Result<Answer, TargetFault>
    requires sets { AreThreeSets graph.now.n (has sets.x.bits) (has sets.y.bits) (has sets.given.bits) }
    requires some { 0 < sets.x.bits }
    ensures answer { IfOk result (Judges by_back_door (graph_of graph.now) sets) }
    ensures fault { IfErr result (IsNotJudged by_back_door sets) }
{
    match judge(graph, sets, by_back_door) {
        Verdict::Meets => Ok(Answer::Admissible(sets)),
        Verdict::Breaks(fault) => Ok(Answer::NotAdmissible(sets, fault)),
        Verdict::NotOne => Err(TargetFault::NotOneX),
    }
}
