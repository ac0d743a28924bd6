//! Identification of an effect over experiments.

ghost use Rattle.std.specs.Prelude.{◌≡◌, ℕ, ◌<◌, ◌≤◌, ◌↔◌, true, length, IsTrue, IfOk, None};
ghost use Rattle.mixed_graph.specs.Vocabulary.{has, Within, Apart, graph_of};
ghost use Rattle.prob_expr.specs.Vocabulary.{fault_in, masks_of, PlainFormula};
ghost use Rattle.do_derivation.specs.Vocabulary.{are_sets};
ghost use Rattle.identify.specs.Vocabulary.{AreShallowSteps, IsShallowFormula};
ghost use Rattle.identification_theory.specs.Vocabulary.{IsIdentified};
ghost use Rattle.surrogates.specs.Surrogates.{IsSurrogate, IsSurrogateBySteps, IsStoppedWith, SomeBlocked};
ghost use Rattle.surrogates.specs.Answers.{IsAnswerWith, IsRightWith, IfFormula, IfStopped, IfCommon, IsStopShown, IsBlockShown, IsCommonShown, IsBlockedTogether, is_stopped, HasCommon};
ghost use Rattle.surrogates.specs.Tries.{IsDistrictFrom};

use crate::answer::{CommonHedge, Surrogate};
use crate::blocking::common_stop;
use crate::gathering::factors_with;
use hedge::joined_sets::districts;
use identify::{Stop, Wanted, ancestors_outside, assembled, hedge_of, observed, order_of};
use mixed_graph::{Graph, VSet};
use std::alloc::{AllocError, Global};

/// Whether there are at most eight experiments, each on some vertices of the graph.
pub fn are_experiments(g: &Graph, experiments: &[VSet]) -> bool
    ensures { IsTrue result ↔ ((length experiments.now ≤ 8) × (are_sets g.now.n (masks_of experiments.now) ≡ true)) }
{
    if experiments.len() > 8 {
        return false;
    }
    are_sets(g.n, experiments)
}

/// Whether each set is one of vertices below n, and not empty.
fn are_sets(n: u32, sets: &[VSet]) -> bool
    requires { n ≤ 64 }
    ensures { result ≡ are_sets n (masks_of sets.now) }
{
    for set in sets {
        if !set.is_below(n) {
            return false;
        }
        if set.is_empty() {
            return false;
        }
    }
    true
}

/// The hedge at which the factor of the district `small` stops under all experiments that leave it
/// alone at once, with its models; none where it doesn't. Without experiment it stops at big.
fn common_hedge(
    alloc: Global,
    g: &Graph,
    x: VSet,
    y: VSet,
    experiments: &[VSet],
    small: VSet,
    big: VSet,
) -> Result<Option<CommonHedge>, AllocError>
    requires x_within { Within g.now.n (has x.bits) }
    requires y_within { Within g.now.n (has y.bits) }
    requires apart { Apart (has x.bits) (has y.bits) }
    requires some { 0 < y.bits }
    requires stop { IsStoppedWith (graph_of g.now) (masks_of experiments.now) x.bits y.bits small.bits big.bits }
    requires district { IsDistrictFrom (graph_of g.now) small.bits 0 }
    ensures { IfOk result (IsCommonShown (graph_of g.now) (masks_of experiments.now) x.bits y.bits small) }
{
    let found = match common_stop(alloc, g, experiments, small, big) {
        Ok(found) => found,
        Err(_) => return Err(AllocError),
    };
    match found {
        Some(common) => {
            let (hedge, pair) = hedge_of(alloc, g, x, y, small, common)?;
            Ok(Some(CommonHedge { hedge, pair }))
        }
        None => Ok(None),
    }
}

/// The answer at the district `small`, whose factor stops, without experiment at big.
fn stopped_answer(
    alloc: Global,
    g: &Graph,
    x: VSet,
    y: VSet,
    experiments: &[VSet],
    small: VSet,
    big: VSet,
) -> Result<Surrogate, AllocError>
    requires x_within { Within g.now.n (has x.bits) }
    requires y_within { Within g.now.n (has y.bits) }
    requires apart { Apart (has x.bits) (has y.bits) }
    requires some { 0 < y.bits }
    requires stop { IsStoppedWith (graph_of g.now) (masks_of experiments.now) x.bits y.bits small.bits big.bits }
    requires district { IsDistrictFrom (graph_of g.now) small.bits 0 }
    ensures answer { IfOk result (IsAnswerWith (graph_of g.now) (masks_of experiments.now) x.bits y.bits) }
    ensures few { IfOk result (λ a. IfFormula a (λ f t. length f.defs ≤ 4096)) }
{
    let common = common_hedge(alloc, g, x, y, experiments, small, big)?;
    let (hedge, pair) = hedge_of(alloc, g, x, y, small, big)?;
    Ok(Surrogate::Stopped {
        district: small,
        hedge,
        pair,
        common,
    })
}

/// What the procedure over experiments answers.
fn answer(
    alloc: Global,
    g: &Graph,
    x: VSet,
    y: VSet,
    experiments: &[VSet],
) -> Result<Surrogate, AllocError>
    requires x_within { Within g.now.n (has x.bits) }
    requires y_within { Within g.now.n (has y.bits) }
    requires apart { Apart (has x.bits) (has y.bits) }
    requires some { 0 < y.bits }
    ensures answer { IfOk result (IsAnswerWith (graph_of g.now) (masks_of experiments.now) x.bits y.bits) }
    ensures few { IfOk result (λ a. IfFormula a (λ f t. length f.defs ≤ 4096)) }
{
    let order = order_of(g);
    if x.is_empty() {
        let (formula, derivation) = observed(alloc, y);
        return Ok(Surrogate::Formula(formula, derivation));
    }
    let d = ancestors_outside(g, x, y);
    let parts = districts(g, d);
    match factors_with(alloc, g, experiments, d, &parts) {
        Ok(made) => {
            let wanted = Wanted::Derivation;
            let (formula, derivation) = assembled(alloc, wanted, g, x, y, d, &order, &parts, made)?;
            Ok(Surrogate::Formula(formula, derivation))
        }
        Err(Stop::At { small, big }) => stopped_answer(alloc, g, x, y, experiments, small, big),
        Err(Stop::NoMemory) => Err(AllocError),
    }
}

/// A formula for P(y | do(x)) from what is observed and from experiments on these sets, or the first
/// district that no experiment frees (Bareinboim and Pearl 2012).
///
/// Where it stops with a common hedge, no formula over what is observed and the experiments equals the
/// effect. Without one it isn't said that the effect can't be computed from the experiments in another
/// way. The only error is want of memory.
pub fn identify_with(
    alloc: Global,
    g: &Graph,
    x: VSet,
    y: VSet,
    experiments: &[VSet],
) -> Result<Surrogate, AllocError>
    requires x_within { Within g.now.n (has x.bits) }
    requires y_within { Within g.now.n (has y.bits) }
    requires apart { Apart (has x.bits) (has y.bits) }
    requires some { 0 < y.bits }
    requires few { length experiments.now ≤ 8 }
    requires experiments { are_sets g.now.n (masks_of experiments.now) ≡ true }

    // A formula has an accepted derivation, terms that are observed or under an experiment, and the value of the effect.
    // Where the procedure stops, there are two models that agree on all observations and differ on the effect.
    // Those of the common hedge agree under each experiment too, so no such formula exists.
    ensures right { IfOk result (IsRightWith (graph_of g.now) (masks_of experiments.now) x.bits y.bits) }

    // It stops exactly where some district is blocked: under no experiment and under each that leaves it alone there is a hedge for it.
    ensures exact { IfOk result (λ a. IsTrue (is_stopped a) ↔ SomeBlocked (graph_of g.now) (masks_of experiments.now) x.bits y.bits) }

    // The formula and its derivation are those of the procedure; where observations alone give a formula, it is that one.
    ensures formula { IfOk result (λ a. IfFormula a (λ f t. IsSurrogate (graph_of g.now) (masks_of experiments.now) x.bits y.bits f)) }
    ensures derived { IfOk result (λ a. IfFormula a (IsSurrogateBySteps (graph_of g.now) (masks_of experiments.now) x.bits y.bits)) }
    ensures formed { IfOk result (λ a. IfFormula a (λ f t. fault_in g.now.n f ≡ None)) }
    ensures shallow_steps { IfOk result (λ a. IfFormula a (λ f t. AreShallowSteps t)) }
    ensures shallow_formula { IfOk result (λ a. IfFormula a (λ f t. IsShallowFormula f)) }
    ensures few { IfOk result (λ a. IfFormula a (λ f t. length f.defs ≤ 4096)) }
    ensures plain { (f : PlainFormula) → IsIdentified (graph_of g.now) x.bits y.bits f → IfOk result (λ a. (is_stopped a ≡ true → ⊥) × IfFormula a (λ h t. h ≡ f)) }

    // The district is the first that is blocked; the hedge is that for it without experiment, with its two models.
    ensures stopped { IfOk result (λ a. IfStopped a (IsStopShown (graph_of g.now) (masks_of experiments.now) x.bits y.bits)) }

    // There is a common hedge exactly where its factor stops under all experiments that leave it alone at once; it is the hedge there, with its two models.
    ensures common { IfOk result (λ a. HasCommon a ↔ IsBlockedTogether (graph_of g.now) (masks_of experiments.now) x.bits y.bits) }
    ensures blocked { IfOk result (λ a. IfCommon a (IsBlockShown (graph_of g.now) (masks_of experiments.now) x.bits y.bits)) }
{
    answer(alloc, g, x, y, experiments)
}
