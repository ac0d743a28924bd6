//! Whether terms stand under allowed interventions.

ghost use Rattle.std.specs.Prelude.{◌≡◌, map};
ghost use Rattle.prob_expr.specs.Listed.{masks_of};
ghost use Rattle.prob_expr.specs.View.{view, views, formula_view};
ghost use Rattle.prob_expr.specs.Terms.{is_listed, is_under, are_under, all_under, is_allowed, is_do_free};

use crate::expr::{Expr, Formula};
use mixed_graph::VSet;

fn is_listed(b: VSet, allowed: &[VSet]) -> bool
    ensures { result ≡ is_listed b.bits (masks_of allowed.now) }
{
    for set in allowed {
        if b.bits == set.bits {
            return true;
        }
    }
    false
}

#[cycle(under)]
fn is_under(e: &Expr, allowed: &[VSet]) -> bool
    ensures { result ≡ is_under (masks_of allowed.now) (view e.now) }
{
    match e {
        Expr::Prob { doing, .. } => doing.is_empty() || is_listed(*doing, allowed),
        Expr::Sum { body, .. } => is_under(body, allowed),
        Expr::Product(factors) => are_under(factors, allowed),
        Expr::Quotient { top, bottom } => is_under(top, allowed) && is_under(bottom, allowed),
        Expr::Named(_) => true,
    }
}

#[cycle(under)]
fn are_under(factors: &Vec<Expr>, allowed: &[VSet]) -> bool
    ensures { result ≡ are_under (masks_of allowed.now) (views factors.now.items) }
{
    for factor in factors {
        if !is_under(factor, allowed) {
            return false;
        }
    }
    true
}

fn all_under(defs: &Vec<Expr>, allowed: &[VSet]) -> bool
    ensures { result ≡ all_under (masks_of allowed.now) (map view defs.now.items) }
{
    for def in defs {
        if !is_under(def, allowed) {
            return false;
        }
    }
    true
}

/// Whether each term of a formula is observed, or under one of the allowed interventions.
pub fn is_allowed(f: &Formula, allowed: &[VSet]) -> bool
    ensures { result ≡ is_allowed (masks_of allowed.now) (formula_view f.now) }
{
    all_under(&f.defs, allowed) && is_under(&f.main, allowed)
}

/// Whether no term of a formula has an intervention.
pub fn is_do_free(f: &Formula) -> bool
    ensures { result ≡ is_do_free (formula_view f.now) }
{
    is_allowed(f, &[])
}
