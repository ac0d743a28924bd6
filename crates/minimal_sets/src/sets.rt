//! The minimal admissible sets, listed.

ghost use Rattle.std.specs.Prelude.{ℕ, ◌+◌, ◌*◌, ◌≤◌, IfOk, All, length};
ghost use Rattle.mixed_graph.specs.Vocabulary.{has, Within, Apart, graph_of};
ghost use Rattle.prob_expr.specs.Vocabulary.{EqualsEffect, effect_on};
ghost use Rattle.adjustment.specs.Vocabulary.{adjustment_formula};
ghost use Rattle.minimal_sets.specs.Listings.{IsListingOf};
ghost use Rattle.minimal_sets.specs.MinimalSets.{IsMinimalSet};

use crate::moral::moral_rows;
use crate::separators::{Listing, SeparationProblem, Steps, list_separators};
use adjustment::proper_paths::{back_door_graph, proper_causal};
use mixed_graph::{Graph, VSet};
use std::alloc::{AllocError, Global};
use std::sync::ledger::Ledger;

/// The minimal admissible sets for the effect of x on y, in ascending order of their lists of
/// members: all of them, or `most` where there are more.
///
/// `steps` counts the closest separators computed: at most n for each set listed, and one
/// (van der Zander, Liskiewicz and Textor).
pub fn list<L: Ledger>(
    alloc: Global,
    g: &Graph,
    x: VSet,
    y: VSet,
    most: u32,
    steps: &mut Steps<L>,
) -> Result<Listing, AllocError>
    requires x { Within g.now.n (has x.bits) }
    requires y { Within g.now.n (has y.bits) }
    requires apart { Apart (has x.bits) (has y.bits) }
    ensures listed { IfOk result (λ l. IsListingOf (IsMinimalSet (graph_of g.now) (has x.bits) (has y.bits)) most l.sets.items l.more) }
    ensures effect { IfOk result (λ l. All (λ s. EqualsEffect (graph_of g.now) (effect_on x.bits y.bits) (adjustment_formula x.bits y.bits s.bits)) l.sets.items) }
    ensures cost { IfOk result (λ l. steps.new ≤ steps.old + 1 + g.now.n * length l.sets.items) }
    ensures bound { IfOk result (λ l. steps.new ≤ steps.old + ((2 * g.now.n + 1) * (length l.sets.items + 1) + 1)) }
{
    let forbidden = g.descendants(proper_causal(g, x, y));
    let h = back_door_graph(g, x, y);
    let within = h.ancestors(x.union(y));
    let p = SeparationProblem {
        n: g.n as u8,
        near: moral_rows(&h, within),
        allowed: within.difference(x).difference(y).difference(forbidden),
        x,
        y,
    };
    list_separators(alloc, &p, most, steps)
}
