//! The minimal sets of strata in which a set is a conditional instrument, listed.

ghost use Rattle.std.specs.Prelude.{ℕ, ◌+◌, ◌*◌, ◌≤◌, ◌↔◌, IsTrue, IfOk, length};
ghost use Rattle.mixed_graph.specs.Vocabulary.{IsDescendant, Apart, has, graph_of};
ghost use Rattle.do_rules.specs.Vocabulary.{AreThreeSets};
ghost use Rattle.minimal_sets.specs.Vocabulary.{IsListingOf};
ghost use Rattle.instrument_sets.specs.Strata.{AreMinimalStrata};

use do_rules::cuts::{cut_into, cut_out};
use minimal_sets::moral::moral_rows;
use minimal_sets::separators::{SeparationProblem, list_separators};
use minimal_sets::{Listing, Steps};
use mixed_graph::{Graph, VSet};
use std::alloc::{AllocError, Global};
use std::sync::ledger::Ledger;

/// The minimal sets of strata in which z, which x doesn't move, is an instrument for the effect of x on y.
///
/// What x moves, `below`, is in no such set. The edges at x don't count: those into x are cut, and x is given.
fn separators_of<L: Ledger>(
    alloc: Global,
    g: &Graph,
    x: VSet,
    y: VSet,
    z: VSet,
    below: VSet,
    most: u32,
    steps: &mut Steps<L>,
) -> Result<Listing, AllocError>
    requires sets { AreThreeSets g.now.n (has x.bits) (has y.bits) (has z.bits) }
    requires below { (v : ℕ) → IsTrue (has below.bits v) ↔ IsDescendant (graph_of g.now) (has x.bits) v }
    requires unmoved { Apart (has z.bits) (has below.bits) }
    ensures listed { IfOk result (λ l. IsListingOf (AreMinimalStrata (graph_of g.now) (has x.bits) (has y.bits) (has z.bits)) most l.sets.items l.more) }
    ensures cost { IfOk result (λ l. steps.new ≤ steps.old + 1 + g.now.n * length l.sets.items) }
{
    let h = cut_out(&cut_into(g, x), x);
    let within = h.ancestors(y.union(z));
    let p = SeparationProblem {
        n: g.n as u8,
        near: moral_rows(&h, within),
        allowed: within.difference(y).difference(z).difference(below),
        x: y,
        y: z,
    };
    list_separators(alloc, &p, most, steps)
}

/// The minimal sets of strata in which z is an instrument for the effect of x on y, in ascending order of their lists of
/// members: all of them, or `most` where there are more.
///
/// `steps` counts the closest separators computed: at most n for each set listed, and one.
pub fn list_strata<L: Ledger>(
    alloc: Global,
    g: &Graph,
    x: VSet,
    y: VSet,
    z: VSet,
    most: u32,
    steps: &mut Steps<L>,
) -> Result<Listing, AllocError>
    requires sets { AreThreeSets g.now.n (has x.bits) (has y.bits) (has z.bits) }
    ensures listed { IfOk result (λ l. IsListingOf (AreMinimalStrata (graph_of g.now) (has x.bits) (has y.bits) (has z.bits)) most l.sets.items l.more) }
    ensures cost { IfOk result (λ l. steps.new ≤ steps.old + 1 + g.now.n * length l.sets.items) }
{
    let below = g.descendants(x);
    let moved = z.intersection(below);
    if !moved.is_empty() {
        return Ok(Listing {
            sets: Vec::new(alloc),
            more: false,
        });
    }
    separators_of(alloc, g, x, y, z, below, most, steps)
}
