//! Whether there is a formula: the procedure without its formulas, which asks for no memory.

ghost use Rattle.std.specs.Prelude.{◌≡◌, ◌<◌, ◌↔◌, ℕ, true, false, List, All, IsTrue, IfSome, IfNone};
ghost use Rattle.mixed_graph.specs.Vocabulary.{has, Within, Apart, graph_of};
ghost use Rattle.hedge.specs.Vocabulary.{IsHedge, IsJoinedSet, IsMaximalJoined, first_masks};
ghost use Rattle.identification_theory.specs.Vocabulary.{StopsAt};
ghost use Rattle.identify.specs.Deciding.{IsStoppedFrom, HasFactor, AreFactorable, HasRightFormula, HasModels, HasRightHedge, IsIdentifiable, IsNotIdentifiable};
ghost use Rattle.identify.specs.Hedged.{IsHedgeOf};

use crate::factors::ancestors_in;
use crate::identifying::ancestors_outside;
use crate::stops::hedge_between;
use hedge::Hedge;
use hedge::joined_sets::{Districts, district_of, districts};
use mixed_graph::{Graph, VSet};

/// A district whose factor stops, and the larger joined set inside which it does.
#[derive(Clone, Copy)]
struct Stopped {
    small: VSet,
    big: VSet,
}

/// Where the factor of c stops: the set inside which all leads to c; none where there is a factor.
fn stop_of(g: &Graph, c: VSet) -> Option<VSet>
    requires within { Within g.now.n (has c.bits) }
    requires some { (v : ℕ) × IsTrue (has c.bits v) }
    requires joined { IsJoinedSet (graph_of g.now) c.bits }
    ensures factor { IfNone result (HasFactor (graph_of g.now) c.bits) }
    ensures stop { IfSome result (λ big. IsStoppedFrom (graph_of g.now) c.bits big.bits) }
{
    let mut a = ancestors_in(g, VSet::below(g.n), c);
    'rounds: loop {
        let t = district_of(g, a, c.lowest());
        if t.bits == c.bits {
            return None;
        }
        let leading = ancestors_in(g, t, c);
        if leading.bits == t.bits {
            return Some(t);
        }
        if leading.bits == c.bits {
            return None;
        }
        a = leading;
    }
}

/// The first district whose factor stops, and where.
fn first_stop(g: &Graph, d: VSet, parts: &Districts) -> Option<Stopped>
    requires within { Within g.now.n (has d.bits) }
    requires districts { All (IsMaximalJoined (graph_of g.now) d.bits) (first_masks parts.now.sets parts.now.count) }
    ensures factors { IfNone result (AreFactorable (graph_of g.now) (first_masks parts.now.sets parts.now.count)) }
    ensures stop { (order : List ℕ) → IfSome result (λ s. StopsAt (graph_of g.now) order 0 (first_masks parts.now.sets parts.now.count) s.small.bits s.big.bits) }
{
    for c in &parts.sets[..parts.count as usize] {
        if let Some(big) = stop_of(g, *c) {
            return Some(Stopped { small: *c, big });
        }
    }
    None
}

/// A hedge for the effect of x on y, that of `identify`; none exactly where there is a formula for the effect.
///
/// It asks for no memory, so it always answers.
pub fn find_hedge(g: &Graph, x: VSet, y: VSet) -> Option<Hedge>
    requires x_within { Within g.now.n (has x.bits) }
    requires y_within { Within g.now.n (has y.bits) }
    requires apart { Apart (has x.bits) (has y.bits) }
    requires some { 0 < y.bits }
    ensures formula { IfNone result (HasRightFormula (graph_of g.now) x.bits y.bits) }
    ensures hedge { IfSome result (IsHedge (graph_of g.now) x.bits y.bits) }
    ensures data { IfSome result (IsHedgeOf (graph_of g.now)) }
    ensures models { IfSome result (HasModels (graph_of g.now) x.bits y.bits) }
{
    let d = ancestors_outside(g, x, y);
    let parts = districts(g, d);
    match first_stop(g, d, &parts) {
        None => None,
        Some(stop) => Some(hedge_between(g, x, y, stop.small, stop.big)),
    }
}

/// Whether the effect of x on y has a formula without interventions: yes exactly where one equals it in each positive model of the
/// graph; no exactly where two positive models of the graph agree on all observations and differ on the effect (Shpitser and Pearl 2006).
///
/// It asks for no memory, so it always answers.
pub fn is_identifiable(g: &Graph, x: VSet, y: VSet) -> bool
    requires x_within { Within g.now.n (has x.bits) }
    requires y_within { Within g.now.n (has y.bits) }
    requires apart { Apart (has x.bits) (has y.bits) }
    requires some { 0 < y.bits }
    ensures yes { IsTrue result ↔ IsIdentifiable (graph_of g.now) x.bits y.bits }
    ensures no { result ≡ false ↔ IsNotIdentifiable (graph_of g.now) x.bits y.bits }
    ensures formula { result ≡ true → HasRightFormula (graph_of g.now) x.bits y.bits }
    ensures hedge { result ≡ false → HasRightHedge (graph_of g.now) x.bits y.bits }
{
    find_hedge(g, x, y).is_none()
}
