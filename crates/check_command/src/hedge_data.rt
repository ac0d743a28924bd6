//! The answer for a hedge.

ghost use Rattle.std.specs.Prelude.{◌≡◌, true, length};
ghost use Rattle.std.specs.List.{list_all};
ghost use Rattle.mixed_graph.specs.Vocabulary.{graph_of};
ghost use Rattle.prob_expr.specs.Vocabulary.{masks_of, target_view};
ghost use Rattle.hedge.specs.Vocabulary.{HasEntries, IsHedge};
ghost use Rattle.check_command.specs.Replies.{IsSoundTarget, is_harmless};
ghost use Rattle.check_command.specs.Right.{DecidesHedge};

use crate::answer::Answer;
use counter_models::laws;
use dag_reader::ReadGraph;
use hedge::{Hedge, holds};
use mixed_graph::VSet;
use prob_expr::Target;
use targets::EffectSets;

/// The answer for a hedge.
pub fn decide_hedge(
    seen: &ReadGraph,
    experiments: &[VSet],
    target: &Target,
    hedge: &Hedge,
) -> Answer
    requires target { IsSoundTarget (length seen.now.names) (target_view target.now) }
    ensures answer { DecidesHedge (graph_of seen.now.graph) (masks_of experiments.now) (target_view target.now) hedge.now result }
    ensures entries { HasEntries hedge.now }
{
    hedge.has_entries();
    match holds(&seen.graph, target.x, target.y, hedge) {
        Ok(()) => decide_over(seen, experiments, target, hedge),
        Err(fault) => Answer::RefusedHedge(fault),
    }
}

/// Whether an experiment leaves the larger set of a hedge alone, or sets a member of the smaller one.
fn is_harmless(hedge: &Hedge, z: VSet) -> bool
    ensures { result ≡ is_harmless hedge.now z.bits }
{
    hedge.big.is_apart(z) || !hedge.small.is_apart(z)
}

/// Whether each experiment does.
fn are_harmless(hedge: &Hedge, experiments: &[VSet]) -> bool
    ensures { result ≡ list_all (is_harmless hedge.now) (masks_of experiments.now) }
{
    for z in experiments {
        if !is_harmless(hedge, *z) {
            return false;
        }
    }
    true
}

/// The answer for a hedge that holds.
fn decide_over(seen: &ReadGraph, experiments: &[VSet], target: &Target, hedge: &Hedge) -> Answer
    requires target { IsSoundTarget (length seen.now.names) (target_view target.now) }
    requires hedge { IsHedge (graph_of seen.now.graph) target.now.x.bits target.now.y.bits hedge.now }
    ensures { DecidesHedge (graph_of seen.now.graph) (masks_of experiments.now) (target_view target.now) hedge.now result }
{
    if are_harmless(hedge, experiments) {
        return accepted(seen, experiments, target, hedge);
    }
    Answer::MetHedge
}

/// The answer for a hedge that holds and that no experiment tells apart: there are two models that show that the effect isn't identifiable.
fn accepted(seen: &ReadGraph, experiments: &[VSet], target: &Target, hedge: &Hedge) -> Answer
    requires target { IsSoundTarget (length seen.now.names) (target_view target.now) }
    requires hedge { IsHedge (graph_of seen.now.graph) target.now.x.bits target.now.y.bits hedge.now }
    requires harmless { list_all (is_harmless hedge.now) (masks_of experiments.now) ≡ true }
    ensures { DecidesHedge (graph_of seen.now.graph) (masks_of experiments.now) (target_view target.now) hedge.now result }
{
    laws();
    Answer::AcceptedHedge {
        sets: EffectSets {
            x: target.x,
            y: target.y,
        },
        hedge: *hedge,
        over_experiments: !experiments.is_empty(),
    }
}
