//! Identification of an effect under a condition.

ghost use Rattle.std.specs.Prelude.{◌≡◌, ◌≢◌, ℕ, ◌<◌, ◌≤◌, ◌↔◌, List, [], true, false, not, length, IsTrue, IfOk, None};
ghost use Rattle.mixed_graph.specs.Vocabulary.{has, IsAncestor, Within, Apart, graph_of, union};
ghost use Rattle.do_rules.specs.Vocabulary.{AreThreeSets};
ghost use Rattle.prob_expr.specs.Vocabulary.{fault_in, HasNoFormula, is_do_free, effect_on, EqualsEffect, formula_view, target_view};
ghost use Rattle.prob_expr.specs.Tree.{prob};
ghost use Rattle.do_derivation.specs.Accepts.{Accepts};
ghost use Rattle.do_derivation.specs.Plans.{Plan, Plans};
ghost use Rattle.do_derivation.specs.Vocabulary.{no_plans, derivation_view};
ghost use Rattle.identification_theory.specs.Vocabulary.{IsDerived, FormulaNamesOnly};
ghost use Rattle.hedge.specs.declared.hedge.Hedge.{Hedge};
ghost use Rattle.hedge.specs.Vocabulary.{IsHedge};
ghost use Rattle.counter_models.specs.Vocabulary.{AreCounterModels};
ghost use Rattle.identify.specs.Vocabulary.{is_hedge, onto};
ghost use Rattle.conditional_id.specs.Conditionals.{divided, divided_derivation, turned_steps, IsConditionalTarget, IsConditional, IsConditionalBySteps};
ghost use Rattle.conditional_id.specs.TurnLaws.{IsShallowGiven};
ghost use Rattle.conditional_id.specs.Settled.{IsSettled};
ghost use Rattle.conditional_id.specs.HedgeLaws.{AreModelsOf};
ghost use Rattle.conditional_id.specs.Answers.{IsAnswerGiven, IsRight, IsJointEffect, IsJointShown, SomeFormula, SomeJointHedge, IfFormula, IfJoint, is_joint};

use crate::answer::{Conditional, Turned};
use crate::dividing::{divided, divided_steps};
use crate::turning::turned;
use do_derivation::{Derivation, Step};
use identify::{Answer, identify};
use mixed_graph::{Graph, VSet};
use prob_expr::{Expr, Formula, Target};
use std::alloc::{AllocError, Global};

/// What identification answers for the effect of x on y.
fn without_condition(alloc: Global, g: &Graph, x: VSet, y: VSet) -> Result<Conditional, AllocError>
    requires x_within { Within g.now.n (has x.bits) }
    requires y_within { Within g.now.n (has y.bits) }
    requires apart { Apart (has x.bits) (has y.bits) }
    requires some { 0 < y.bits }
    ensures answer { IfOk result (IsAnswerGiven (graph_of g.now) (effect_on x.bits y.bits)) }
    ensures exact { IfOk result (λ a. IsTrue (is_joint a) ↔ SomeJointHedge (graph_of g.now) (effect_on x.bits y.bits)) }
{
    match identify(alloc, g, x, y)? {
        Answer::Formula(formula, derivation) => Ok(Conditional::Formula(formula, derivation)),
        Answer::Hedge(hedge, pair) => Ok(Conditional::Joint {
            x,
            y,
            settled: true,
            hedge,
            pair,
        }),
    }
}

/// The formula P(y | given), which is the effect of no intervention without a step.
fn observed_given(alloc: Global, y: VSet, given: VSet) -> (Formula, Derivation)
    ensures formula { formula_view result.0 ≡ record { defs = []; main = prob y.bits 0 given.bits } }
    ensures derivation { derivation_view result.1 ≡ record { lemmas = []; main = Plan.Then no_plans } }
{
    let formula = Formula {
        defs: Vec::new(alloc),
        main: Expr::Prob {
            of: y,
            doing: VSet::EMPTY,
            given,
        },
    };
    let derivation = Derivation {
        lemmas: Vec::new(alloc),
        main: Step::Then(Vec::new(alloc)),
    };
    (formula, derivation)
}

/// The divided formula with its derivation, from those of the joint effect into which the observations turn.
fn divided_answer(
    alloc: Global,
    y: VSet,
    turned: Turned,
    joint: Formula,
    derivation: Derivation,
) -> Result<(Formula, Derivation), AllocError>
    ensures formula { IfOk result (λ p. formula_view p.0 ≡ divided y.bits turned.left.bits (formula_view joint)) }
    ensures derivation { (vs : List ℕ) → ((rest : Plans) → onto turned.steps.items rest ≡ turned_steps vs rest)
        → IfOk result (λ p. derivation_view p.1 ≡ divided_derivation vs y.bits turned.left.bits (derivation_view derivation)) }
{
    let formula = divided(alloc, y, turned.left, joint)?;
    let steps = divided_steps(alloc, y, turned.left, turned.steps, derivation.main)?;
    let derivation = Derivation {
        lemmas: derivation.lemmas,
        main: Step::Then(steps),
    };
    Ok((formula, derivation))
}

/// Whether a formula is answered.
fn is_formula(answer: &Answer) -> bool
    ensures { result ≡ not (is_hedge answer.now) }
{
    matches!(answer, Answer::Formula(_, _))
}

/// Whether no observation is left, or those that are left have an effect that is known.
fn is_settled(alloc: Global, g: &Graph, doing: VSet, left: VSet) -> Result<bool, AllocError>
    requires doing_within { Within g.now.n (has doing.bits) }
    requires left_within { Within g.now.n (has left.bits) }
    requires apart { Apart (has doing.bits) (has left.bits) }
    ensures settled { IfOk result (λ b. IsTrue b ↔ IsSettled (graph_of g.now) doing.bits left.bits) }
    ensures unsettled { IfOk result (λ b. b ≡ false → (h : Hedge) × IsHedge (graph_of g.now) doing.bits left.bits h) }
{
    if left.is_empty() {
        return Ok(true);
    }
    let answer = identify(alloc, g, doing, left)?;
    Ok(is_formula(&answer))
}

/// The answer for a target with interventions.
fn with_condition(alloc: Global, g: &Graph, t: Target) -> Result<Conditional, AllocError>
    requires sets { AreThreeSets g.now.n (has t.x.bits) (has t.y.bits) (has t.given.bits) }
    requires some { 0 < t.y.bits }
    requires doing { t.x.bits ≢ 0 }
    requires given { t.given.bits ≢ 0 }
    ensures answer { IfOk result (IsAnswerGiven (graph_of g.now) (target_view t)) }
    ensures exact { IfOk result (λ a. IsTrue (is_joint a) ↔ SomeJointHedge (graph_of g.now) (target_view t)) }
{
    let turned = turned(alloc, g, t.x, t.y, t.given)?;
    let doing = turned.doing;
    let joint = t.y.union(turned.left);
    match identify(alloc, g, doing, joint)? {
        Answer::Formula(undivided, derivation) => {
            let (formula, derivation) = divided_answer(alloc, t.y, turned, undivided, derivation)?;
            Ok(Conditional::Formula(formula, derivation))
        }
        Answer::Hedge(hedge, pair) => {
            let settled = is_settled(alloc, g, doing, turned.left)?;
            Ok(Conditional::Joint {
                x: doing,
                y: joint,
                settled,
                hedge,
                pair,
            })
        }
    }
}

/// What is found for the target.
fn answer(alloc: Global, g: &Graph, t: Target) -> Result<Conditional, AllocError>
    requires sets { AreThreeSets g.now.n (has t.x.bits) (has t.y.bits) (has t.given.bits) }
    requires some { 0 < t.y.bits }
    ensures target { IsConditionalTarget (graph_of g.now) (target_view t) }
    ensures answer { IfOk result (IsAnswerGiven (graph_of g.now) (target_view t)) }
    ensures exact { IfOk result (λ a. IsTrue (is_joint a) ↔ SomeJointHedge (graph_of g.now) (target_view t)) }
{
    if t.given.is_empty() {
        return without_condition(alloc, g, t.x, t.y);
    }
    if t.x.is_empty() {
        let (formula, derivation) = observed_given(alloc, t.y, t.given);
        return Ok(Conditional::Formula(formula, derivation));
    }
    with_condition(alloc, g, t)
}

/// A formula for P(y | do(x), given) from what is observed, or a joint effect that can't be
/// identified, which shows that there is none: the procedure IDC of Shpitser and Pearl (2006).
///
/// Observations turn into interventions, the lowest first, as long as rule 2 lets one; then the joint
/// effect of y and of what is left is identified, and divided by its sum over y. Where that effect has
/// a hedge, it is answered. Where a joint effect is answered, no formula without interventions equals
/// P(y | do(x), given). The only error is want of memory.
pub fn identify_given(alloc: Global, g: &Graph, t: &Target) -> Result<Conditional, AllocError>
    requires sets { AreThreeSets g.now.n (has t.now.x.bits) (has t.now.y.bits) (has t.now.given.bits) }
    requires some { 0 < t.now.y.bits }

    // A formula has an accepted derivation and the value of the effect; a joint effect is the one into which the observations
    // turn, by sets with which the effect is the same, and has two models that agree on all observations and differ on it,
    // and where the answer is settled on the target too. Settled or not, two models give the target two values.
    ensures right { IfOk result (IsRight (graph_of g.now) (target_view t.now)) }

    // A formula is answered exactly where the target has one without interventions.
    ensures exact_formula { IfOk result (λ a. is_joint a ≡ false ↔ SomeFormula (graph_of g.now) (target_view t.now)) }

    // A joint effect is answered exactly where there is a hedge for the one into which the observations turn.
    ensures exact { IfOk result (λ a. IsTrue (is_joint a) ↔ SomeJointHedge (graph_of g.now) (target_view t.now)) }

    // The formula, its derivation, and what is true of them. Where nothing is given they are those of identification.
    ensures formula { IfOk result (λ a. IfFormula a (λ f d. IsConditional (graph_of g.now) (target_view t.now) f)) }
    ensures derived { IfOk result (λ a. IfFormula a (IsConditionalBySteps (graph_of g.now) (target_view t.now))) }
    ensures plain { t.now.given.bits ≡ 0 → IfOk result (λ a. IfFormula a (IsDerived (graph_of g.now) t.now.x.bits t.now.y.bits)) }
    ensures accepted { IfOk result (λ a. IfFormula a (Accepts (graph_of g.now) [] (target_view t.now))) }
    ensures formed { IfOk result (λ a. IfFormula a (λ f d. fault_in g.now.n f ≡ None)) }
    ensures do_free { IfOk result (λ a. IfFormula a (λ f d. is_do_free f ≡ true)) }
    ensures names { IfOk result (λ a. IfFormula a (λ f d. FormulaNamesOnly (IsAncestor (graph_of g.now) (has (union t.now.y.bits t.now.given.bits))) f)) }
    ensures effect { IfOk result (λ a. IfFormula a (λ f d. EqualsEffect (graph_of g.now) (target_view t.now) f)) }
    ensures shallow { IfOk result (λ a. IfFormula a IsShallowGiven) }
    ensures few { IfOk result (λ a. IfFormula a (λ f d. length f.defs ≤ 4096)) }

    // The joint effect, its hedge and its two models. Where nothing is given it is the effect of x on y.
    ensures joint { IfOk result (λ a. IfJoint a (λ x y b h pair. IsJointEffect (graph_of g.now) (target_view t.now) x.bits y.bits)) }
    ensures shown { IfOk result (λ a. IfJoint a (IsJointShown (graph_of g.now) (target_view t.now))) }
    ensures plain_joint { t.now.given.bits ≡ 0 → IfOk result (λ a. IfJoint a (λ x y b h pair. (x.bits ≡ t.now.x.bits) × (y.bits ≡ t.now.y.bits))) }
    ensures counter { IfOk result (λ a. IfJoint a (λ x y b h pair. AreCounterModels (graph_of g.now) x.bits y.bits pair)) }

    // Where it is answered, two positive models that agree on all observations give the target two values, and no formula
    // without interventions equals it.
    ensures models { IfOk result (λ a. IfJoint a (λ x y b h pair. AreModelsOf (graph_of g.now) (target_view t.now))) }
    ensures no_formula { IfOk result (λ a. IfJoint a (λ x y b h pair. HasNoFormula (graph_of g.now) (target_view t.now))) }
{
    answer(alloc, g, *t)
}
