//! The factors of all districts over the experiments, one after the other, until one stops.

ghost use Rattle.std.specs.Prelude.{◌≡◌, ◌+◌, ◌*◌, ◌<◌, ◌^◌, ℕ, IsTrue, MatchResult, length, All};
ghost use Rattle.mixed_graph.specs.Vocabulary.{has, Within, graph_of};
ghost use Rattle.hedge.specs.Vocabulary.{IsMaximalJoined, first_masks};
ghost use Rattle.prob_expr.specs.Vocabulary.{masks_of};
ghost use Rattle.surrogates.specs.Gathered.{AreFactorsWith, IsStopWith};

use crate::tries::first_factor;
use hedge::joined_sets::Districts;
use identify::{Factors, Stop, add_found, no_factors};
use mixed_graph::{Graph, VSet};
use std::alloc::Global;

/// The factors of the districts of d in turn; or the first district all of whose tries stop.
pub fn factors_with(
    alloc: Global,
    g: &Graph,
    experiments: &[VSet],
    d: VSet,
    parts: &Districts,
) -> Result<Factors, Stop>
    requires within { Within g.now.n (has d.bits) }
    requires districts { All (IsMaximalJoined (graph_of g.now) d.bits) (first_masks parts.now.sets parts.now.count) }
    ensures { MatchResult result (AreFactorsWith (graph_of g.now) (masks_of experiments.now) (first_masks parts.now.sets parts.now.count))
        (IsStopWith (graph_of g.now) (masks_of experiments.now) (first_masks parts.now.sets parts.now.count)) }
{
    let mut made = no_factors(alloc);
    for c in &parts.sets[..parts.count as usize] {
        let found = first_factor(alloc, g, experiments, *c, made.defs.len() as u32);
        match add_found(&mut made, *c, found) {
            Ok(()) => {}
            Err(stop) => return Err(stop),
        }
    }
    Ok(made)
}
