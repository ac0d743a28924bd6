//! How deep formulas and derivations nest.

ghost use Rattle.std.specs.Prelude.{◌≡◌, map};
ghost use Rattle.prob_expr.specs.View.{view};
ghost use Rattle.prob_expr.specs.Vocabulary.{views};
ghost use Rattle.do_derivation.specs.Vocabulary.{step_view, steps_view, lemma_view};
ghost use Rattle.identification_theory.specs.Vocabulary.{is_plan_within, are_plans_within, are_lemmas_within, is_tree_within, are_trees_within, are_defs_within};

use do_derivation::{Lemma, Step};
use prob_expr::Expr;

/// Whether at most d nodes of an expression lie in each other.
#[cycle(nodes)]
pub fn is_tree_within(d: u32, e: &Expr) -> bool
    ensures { result ≡ is_tree_within d (view e.now) }
{
    if d == 0 {
        return false;
    }
    match e {
        Expr::Prob { .. } => true,
        Expr::Sum { over: _, body } => is_tree_within(d - 1, body),
        Expr::Product(factors) => are_trees_within(d - 1, factors),
        Expr::Quotient { top, bottom } => {
            is_tree_within(d - 1, top) && is_tree_within(d - 1, bottom)
        }
        Expr::Named(_) => true,
    }
}

/// Whether those of each factor do.
#[cycle(nodes)]
fn are_trees_within(d: u32, factors: &Vec<Expr>) -> bool
    ensures { result ≡ are_trees_within d (views factors.now.items) }
{
    for factor in factors {
        if !is_tree_within(d, factor) {
            return false;
        }
    }
    true
}

/// Whether those of each definition do.
pub fn are_defs_within(d: u32, defs: &Vec<Expr>) -> bool
    ensures { result ≡ are_defs_within d (map view defs.now.items) }
{
    for def in defs {
        if !is_tree_within(d, def) {
            return false;
        }
    }
    true
}

/// Whether at most d steps lie in each other.
#[cycle(steps)]
pub fn is_step_within(d: u32, step: &Step) -> bool
    ensures { result ≡ is_plan_within d (step_view step.now) }
{
    if d == 0 {
        return false;
    }
    match step {
        Step::Make(_) => true,
        Step::At(_, inner) => is_step_within(d - 1, inner),
        Step::Then(steps) => are_steps_within(d - 1, steps),
    }
}

/// Whether each of the steps nests so.
#[cycle(steps)]
fn are_steps_within(d: u32, steps: &Vec<Step>) -> bool
    ensures { result ≡ are_plans_within d (steps_view steps.now.items) }
{
    for step in steps {
        if !is_step_within(d, step) {
            return false;
        }
    }
    true
}

/// Whether the step of each lemma nests so.
pub fn are_lemmas_within(d: u32, lemmas: &Vec<Lemma>) -> bool
    ensures { result ≡ are_lemmas_within d (map lemma_view lemmas.now.items) }
{
    for lemma in lemmas {
        if !is_step_within(d, &lemma.step) {
            return false;
        }
    }
    true
}
