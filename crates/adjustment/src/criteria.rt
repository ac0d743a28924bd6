//! The adjustment criterion and the back-door criterion (Pearl; Shpitser, VanderWeele and Robins).

ghost use Rattle.std.specs.Prelude.{ℕ, ◌<◌, ◌==◌, IfErr, IfSome, IfNone, OnOk, IsTrue};
ghost use Rattle.mixed_graph.specs.Vocabulary.{has, graph_of, one};
ghost use Rattle.do_rules.specs.Vocabulary.{AreThreeSets};
ghost use Rattle.prob_expr.specs.Vocabulary.{FailsSomewhere, EqualsEffect, effect_on};
ghost use Rattle.adjustment.specs.Criteria.{IsAdmissible, IsBackDoorSet};
ghost use Rattle.adjustment.specs.Faults.{IsLowestIn, IsClearOf, IsAdjustmentFault, IsBackDoorFault};
ghost use Rattle.adjustment.specs.Formulas.{adjustment_formula};

use crate::parts::last_part;
use crate::proper_paths::{back_door_graph, proper_causal};
use do_rules::cuts::cut_out;
use m_separation::{OpenPath, open_path};
use mixed_graph::{Graph, VSet};

/// What breaks a criterion.
#[derive(Clone, Copy)]
pub enum AdjFault {
    /// The lowest member of the set that the criterion forbids.
    Forbidden(u8),
    /// No member is forbidden, and the set leaves this path from x to y open against the criterion.
    Unblocked(OpenPath),
}

/// The lowest member of z that is forbidden.
fn lowest_forbidden(z: VSet, forbidden: VSet) -> Option<u8>
    ensures found { IfSome result (λ v. IsLowestIn (λ u. IsTrue (has forbidden.bits u)) (has z.bits) v) }
    ensures none { IfNone result (IsClearOf (λ u. IsTrue (has forbidden.bits u)) (has z.bits)) }
{
    let bad = z.intersection(forbidden);
    if bad.is_empty() {
        None
    } else {
        Some(bad.lowest())
    }
}

/// Whether z is admissible for the effect of x on y: whether the formula that sums over z is the
/// effect because of the paths of the graph. Else the formula isn't the effect in some positive
/// model that fits.
///
/// `Forbidden`: a member of z has a directed path to it from a vertex outside x on a proper causal
/// path. `Unblocked`: a proper path that isn't causal is open given z (Shpitser, VanderWeele and
/// Robins; van der Zander, Liskiewicz and Textor).
pub fn adjusts(g: &Graph, x: VSet, y: VSet, z: VSet) -> Result<(), AdjFault>
    requires { AreThreeSets g.now.n (has x.bits) (has y.bits) (has z.bits) }
    ensures admissible { OnOk result (IsAdmissible (graph_of g.now) (has x.bits) (has y.bits) (has z.bits)) }
    ensures effect { OnOk result (EqualsEffect (graph_of g.now) (effect_on x.bits y.bits) (adjustment_formula x.bits y.bits z.bits)) }
    ensures fault { IfErr result (λ f. IsAdjustmentFault (graph_of g.now) (has x.bits) (has y.bits) (has z.bits) f) }
    ensures fails { IfErr result (λ f. FailsSomewhere (graph_of g.now) (effect_on x.bits y.bits) (adjustment_formula x.bits y.bits z.bits)) }
{
    let forbidden = g.descendants(proper_causal(g, x, y));
    if let Some(v) = lowest_forbidden(z, forbidden) {
        return Err(AdjFault::Forbidden(v));
    }
    match open_path(&back_door_graph(g, x, y), x, y, z) {
        None => Ok(()),
        Some(path) => Err(AdjFault::Unblocked(last_part(&path, x))),
    }
}

/// Whether z meets the back-door criterion for the effect of the one exposure x on y.
///
/// `Forbidden`: a member of z is a descendant of x. `Unblocked`: a path from x to y that begins with
/// an arrowhead at x is open given z (Pearl, Causality, section 3.3).
pub fn back_door(g: &Graph, x: u8, y: VSet, z: VSet) -> Result<(), AdjFault>
    requires vertex { x < 64 }
    requires sets { AreThreeSets g.now.n (λ u. u == x) (has y.bits) (has z.bits) }
    ensures meets { OnOk result (IsBackDoorSet (graph_of g.now) x (has y.bits) (has z.bits)) }
    ensures effect { OnOk result (EqualsEffect (graph_of g.now) (effect_on (one x) y.bits) (adjustment_formula (one x) y.bits z.bits)) }
    ensures fault { IfErr result (λ f. IsBackDoorFault (graph_of g.now) x (has y.bits) (has z.bits) f) }
{
    let exposure = VSet::one(x);
    if let Some(v) = lowest_forbidden(z, g.descendants(exposure)) {
        return Err(AdjFault::Forbidden(v));
    }
    match open_path(&cut_out(g, exposure), exposure, y, z) {
        None => Ok(()),
        Some(path) => Err(AdjFault::Unblocked(path)),
    }
}
