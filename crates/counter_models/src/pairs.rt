//! The two models of a hedge.

ghost use Rattle.std.specs.Prelude.{◌≡◌, ℕ, ◌<◌, IsTrue, IfOk};
ghost use Rattle.mixed_graph.specs.Vocabulary.{has, Within, Apart, graph_of};
ghost use Rattle.hedge.specs.Vocabulary.{IsHedge};
ghost use Rattle.counter_models.specs.Pairs.{IsPairOf};

use crate::carrying::carry_toward;
use crate::causes::causes;
use crate::counter_pair::CounterPair;
use crate::mechanisms::{first_mechanisms, second_mechanisms, sizes};
use finite_models::Model;
use hedge::Hedge;
use mixed_graph::{Graph, VSet};
use std::alloc::{AllocError, Global};

/// Two models of the graph that agree on all observations and differ on the effect of x on y (Shpitser and Pearl).
///
/// A hedge shows that the effect isn't identifiable; this is the proof for the hedge at hand. The only error is want of memory.
pub fn build(
    alloc: Global,
    g: &Graph,
    x: VSet,
    y: VSet,
    h: &Hedge,
) -> Result<CounterPair, AllocError>
    requires x_within { Within g.now.n (has x.bits) }
    requires y_within { Within g.now.n (has y.bits) }
    requires apart { Apart (has x.bits) (has y.bits) }
    requires holds { IsHedge (graph_of g.now) x.bits y.bits h.now }
    ensures pair { IfOk result (IsPairOf (graph_of g.now) x.bits y.bits h.now) }
{
    let carried = carry_toward(g, x, y, h.roots);
    let kept = carried.kept;
    let first = Model {
        sizes: sizes(alloc, g.n, h, kept)?,
        causes: causes(alloc, h, kept)?,
        mechanisms: first_mechanisms(alloc, g.n, h, &carried)?,
    };
    let second = Model {
        sizes: sizes(alloc, g.n, h, kept)?,
        causes: causes(alloc, h, kept)?,
        mechanisms: second_mechanisms(alloc, g.n, h, &carried)?,
    };
    Ok(CounterPair {
        first,
        second,
        carry: carried.carry,
        event: kept.intersection(y),
        noise: h.small.count() + kept.count(),
    })
}
