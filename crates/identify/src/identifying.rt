//! Identification of an effect from a graph.

ghost use Rattle.std.specs.Prelude.{◌≡◌, ℕ, ◌<◌, ◌≤◌, ◌↔◌, [], true, length, IsTrue, IfOk, None};
ghost use Rattle.mixed_graph.specs.Vocabulary.{has, IsAncestor, IsOrder, Within, Apart, graph_of, minus, all};
ghost use Rattle.hedge.specs.declared.hedge.Hedge.{Hedge as HedgeData};
ghost use Rattle.hedge.specs.Vocabulary.{IsHedge};
ghost use Rattle.prob_expr.specs.Vocabulary.{fault_in, is_do_free, effect_on, EqualsEffect, formula_view};
ghost use Rattle.prob_expr.specs.Tree.{prob};
ghost use Rattle.do_derivation.specs.Accepts.{Accepts};
ghost use Rattle.do_derivation.specs.Plans.{Plan};
ghost use Rattle.do_derivation.specs.Vocabulary.{no_plans, derivation_view, listed};
ghost use Rattle.identification_theory.specs.Vocabulary.{IsDerived, AreAncestorsIn, IsIdentified, IsUnidentified, FormulaNamesOnly};
ghost use Rattle.counter_models.specs.Vocabulary.{AreCounterModels, IsPairOf};
ghost use Rattle.identify.specs.Hedged.{IsHedgeOf};
ghost use Rattle.identify.specs.Answers.{IsAnswerOf, IsRight, IfFormula, IfHedge, is_hedge, AreShallowSteps, IsShallowFormula};
ghost use Rattle.identify.specs.Answers.{IsFormulaAnswerOf, IsRightAlone, IfFormulaAlone, IfHedgeAlone, is_hedge_alone};

use crate::answer::{Answer, FormulaAnswer, Stop};
use crate::gathering::factors;
use crate::mains::assembled;
use crate::stops::hedge_of;
use crate::wanted::Wanted;
use do_derivation::{Derivation, Step};
use hedge::joined_sets::districts;
use mixed_graph::{Graph, Order, VSet};
use prob_expr::{Expr, Formula};
use std::alloc::{AllocError, Global};

/// The formula P(y), which is the effect of no intervention without a step.
pub fn observed(alloc: Global, y: VSet) -> (Formula, Derivation)
    ensures formula { formula_view result.0 ≡ record { defs = []; main = prob y.bits 0 0 } }
    ensures derivation { derivation_view result.1 ≡ record { lemmas = []; main = Plan.Then no_plans } }
{
    let none = VSet::EMPTY;
    let formula = Formula {
        defs: Vec::new(alloc),
        main: Expr::Prob {
            of: y,
            doing: none,
            given: none,
        },
    };
    let derivation = Derivation {
        lemmas: Vec::new(alloc),
        main: Step::Then(Vec::new(alloc)),
    };
    (formula, derivation)
}

/// The ancestors of y once x is left out.
pub fn ancestors_outside(g: &Graph, x: VSet, y: VSet) -> VSet
    requires { Within g.now.n (has y.bits) }
    ensures { AreAncestorsIn (graph_of g.now) (minus (all g.now.n) x.bits) y.bits result.bits }
{
    let free = VSet::below(g.n).difference(x);
    g.induced(free).ancestors(y)
}

/// The order of the graph.
pub fn order_of(g: &Graph) -> Order
    ensures order { IsOrder (graph_of g.now) result.list result.count }
    ensures full { length result.list ≡ 64 }
    ensures listed { IsOrder (graph_of g.now) (listed result) (length (listed result)) }
{
    g.order()
}

/// What the procedure answers, where that is wanted.
fn answer(alloc: Global, wanted: Wanted, g: &Graph, x: VSet, y: VSet) -> Result<Answer, AllocError>
    requires x_within { Within g.now.n (has x.bits) }
    requires y_within { Within g.now.n (has y.bits) }
    requires apart { Apart (has x.bits) (has y.bits) }
    requires some { 0 < y.bits }
    ensures answer { IfOk result (IsAnswerOf wanted (graph_of g.now) x.bits y.bits) }
    ensures few { IfOk result (λ a. IfFormula a (λ f d. length f.defs ≤ 4096)) }
{
    let order = order_of(g);
    if x.is_empty() {
        let (formula, derivation) = observed(alloc, y);
        return Ok(Answer::Formula(formula, derivation));
    }
    let d = ancestors_outside(g, x, y);
    let parts = districts(g, d);
    match factors(alloc, wanted, g, &order, d, &parts) {
        Ok(made) => {
            let (formula, derivation) = assembled(alloc, wanted, g, x, y, d, &order, &parts, made)?;
            Ok(Answer::Formula(formula, derivation))
        }
        Err(Stop::At { small, big }) => {
            let (hedge, pair) = hedge_of(alloc, g, x, y, small, big)?;
            Ok(Answer::Hedge(hedge, pair))
        }
        Err(Stop::NoMemory) => Err(AllocError),
    }
}

/// A formula for P(y | do(x)) from what is observed, or a hedge, which shows that there is none: the
/// procedure ID of Shpitser and Pearl (2006).
///
/// The only error is want of memory.
pub fn identify(alloc: Global, g: &Graph, x: VSet, y: VSet) -> Result<Answer, AllocError>
    requires x_within { Within g.now.n (has x.bits) }
    requires y_within { Within g.now.n (has y.bits) }
    requires apart { Apart (has x.bits) (has y.bits) }
    requires some { 0 < y.bits }

    // The headline: either half of the theorem.
    ensures right { IfOk result (IsRight (graph_of g.now) x.bits y.bits) }

    // A hedge is answered exactly where there is one.
    ensures exact { IfOk result (λ a. IsTrue (is_hedge a) ↔ ((h : HedgeData) × IsHedge (graph_of g.now) x.bits y.bits h)) }

    // The formula, its derivation, and what is true of them.
    ensures derived { IfOk result (λ a. IfFormula a (IsDerived (graph_of g.now) x.bits y.bits)) }
    ensures accepted { IfOk result (λ a. IfFormula a (Accepts (graph_of g.now) [] (effect_on x.bits y.bits))) }
    ensures formed { IfOk result (λ a. IfFormula a (λ f d. fault_in g.now.n f ≡ None)) }
    ensures do_free { IfOk result (λ a. IfFormula a (λ f d. is_do_free f ≡ true)) }
    ensures names { IfOk result (λ a. IfFormula a (λ f d. FormulaNamesOnly (IsAncestor (graph_of g.now) (has y.bits)) f)) }
    ensures effect { IfOk result (λ a. IfFormula a (λ f d. EqualsEffect (graph_of g.now) (effect_on x.bits y.bits) f)) }
    ensures shallow_steps { IfOk result (λ a. IfFormula a (λ f d. AreShallowSteps d)) }
    ensures shallow_formula { IfOk result (λ a. IfFormula a (λ f d. IsShallowFormula f)) }
    ensures few { IfOk result (λ a. IfFormula a (λ f d. length f.defs ≤ 4096)) }

    // The hedge, its data, and its two models.
    ensures stop { IfOk result (λ a. IfHedge a (λ h pair. IsUnidentified (graph_of g.now) x.bits y.bits h.small.bits h.big.bits)) }
    ensures hedge { IfOk result (λ a. IfHedge a (λ h pair. IsHedge (graph_of g.now) x.bits y.bits h)) }
    ensures data { IfOk result (λ a. IfHedge a (λ h pair. IsHedgeOf (graph_of g.now) h)) }
    ensures pair { IfOk result (λ a. IfHedge a (IsPairOf (graph_of g.now) x.bits y.bits)) }
    ensures counter { IfOk result (λ a. IfHedge a (λ h pair. AreCounterModels (graph_of g.now) x.bits y.bits pair)) }
{
    answer(alloc, Wanted::Derivation, g, x, y)
}

/// What the procedure answers where a formula alone is wanted.
fn formula_answer(alloc: Global, g: &Graph, x: VSet, y: VSet) -> Result<FormulaAnswer, AllocError>
    requires x_within { Within g.now.n (has x.bits) }
    requires y_within { Within g.now.n (has y.bits) }
    requires apart { Apart (has x.bits) (has y.bits) }
    requires some { 0 < y.bits }
    ensures answer { IfOk result (IsFormulaAnswerOf (graph_of g.now) x.bits y.bits) }
    ensures few { IfOk result (λ a. IfFormulaAlone a (λ f. length f.defs ≤ 4096)) }
{
    match answer(alloc, Wanted::Formula, g, x, y)? {
        Answer::Formula(formula, _) => Ok(FormulaAnswer::Formula(formula)),
        Answer::Hedge(hedge, pair) => Ok(FormulaAnswer::Hedge(hedge, pair)),
    }
}

/// The same as `identify`, where a formula alone is wanted: its derivation exists and isn't made.
///
/// The only error is want of memory.
pub fn identify_formula(
    alloc: Global,
    g: &Graph,
    x: VSet,
    y: VSet,
) -> Result<FormulaAnswer, AllocError>
    requires x_within { Within g.now.n (has x.bits) }
    requires y_within { Within g.now.n (has y.bits) }
    requires apart { Apart (has x.bits) (has y.bits) }
    requires some { 0 < y.bits }

    // Either half of the theorem: the formula is right by the derivation that the procedure has for it, or the hedge is.
    ensures right { IfOk result (IsRightAlone (graph_of g.now) x.bits y.bits) }

    // A hedge is answered exactly where there is one.
    ensures exact { IfOk result (λ a. IsTrue (is_hedge_alone a) ↔ ((h : HedgeData) × IsHedge (graph_of g.now) x.bits y.bits h)) }

    // The formula, and what is true of it.
    ensures identified { IfOk result (λ a. IfFormulaAlone a (IsIdentified (graph_of g.now) x.bits y.bits)) }
    ensures formed { IfOk result (λ a. IfFormulaAlone a (λ f. fault_in g.now.n f ≡ None)) }
    ensures do_free { IfOk result (λ a. IfFormulaAlone a (λ f. is_do_free f ≡ true)) }
    ensures names { IfOk result (λ a. IfFormulaAlone a (FormulaNamesOnly (IsAncestor (graph_of g.now) (has y.bits)))) }
    ensures effect { IfOk result (λ a. IfFormulaAlone a (EqualsEffect (graph_of g.now) (effect_on x.bits y.bits))) }
    ensures shallow_formula { IfOk result (λ a. IfFormulaAlone a IsShallowFormula) }
    ensures few { IfOk result (λ a. IfFormulaAlone a (λ f. length f.defs ≤ 4096)) }

    // The hedge, its data, and its two models.
    ensures stop { IfOk result (λ a. IfHedgeAlone a (λ h pair. IsUnidentified (graph_of g.now) x.bits y.bits h.small.bits h.big.bits)) }
    ensures hedge { IfOk result (λ a. IfHedgeAlone a (λ h pair. IsHedge (graph_of g.now) x.bits y.bits h)) }
    ensures data { IfOk result (λ a. IfHedgeAlone a (λ h pair. IsHedgeOf (graph_of g.now) h)) }
    ensures pair { IfOk result (λ a. IfHedgeAlone a (IsPairOf (graph_of g.now) x.bits y.bits)) }
    ensures counter { IfOk result (λ a. IfHedgeAlone a (λ h pair. AreCounterModels (graph_of g.now) x.bits y.bits pair)) }
{
    formula_answer(alloc, g, x, y)
}
