//! The ways that lead to y: through m, and past it.

ghost use Rattle.mixed_graph.specs.Vocabulary.{has, Within, Apart, graph_of};
ghost use Rattle.hedge.specs.Vocabulary.{IsSetOf};
ghost use Rattle.nested_models.specs.Vocabulary.{LeadsPast, LeadsThrough};

use identify::ancestors_outside;
use mixed_graph::{Graph, VSet};

/// What leads to y past m, by a directed path without arrows out of x and m.
pub fn leading_past(g: &Graph, x: VSet, m: VSet, y: VSet) -> VSet
    requires y_within { Within g.now.n (has y.bits) }
    requires y_off_x { Apart (has y.bits) (has x.bits) }
    requires y_off_m { Apart (has y.bits) (has m.bits) }
    ensures { IsSetOf result.bits (LeadsPast (graph_of g.now) (has x.bits) (has m.bits) (has y.bits)) }
{
    ancestors_outside(g, x.union(m), y)
}

/// What leads to y through m, by a directed path without arrows out of x to a member of m that acts on y past the others.
pub fn leading_through(g: &Graph, x: VSet, m: VSet, past: VSet, y: VSet) -> VSet
    requires m_within { Within g.now.n (has m.bits) }
    requires m_off_x { Apart (has m.bits) (has x.bits) }
    requires past { IsSetOf past.bits (LeadsPast (graph_of g.now) (has x.bits) (has m.bits) (has y.bits)) }
    ensures { IsSetOf result.bits (LeadsThrough (graph_of g.now) (has x.bits) (has m.bits) (has y.bits)) }
{
    let mediators = m.intersection(g.parents_of(past));
    ancestors_outside(g, x, mediators)
}
