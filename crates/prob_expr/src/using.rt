//! Whether a formula has vertices of a set alone.

ghost use Rattle.std.specs.Prelude.{◌≡◌, map};
ghost use Rattle.prob_expr.specs.Uses.{uses_only, use_only, defs_use_only, formula_uses_only};
ghost use Rattle.prob_expr.specs.View.{view, views, formula_view};

use crate::expr::{Expr, Formula};
use mixed_graph::VSet;

#[cycle(using)]
fn uses_only(e: &Expr, set: VSet) -> bool
    ensures { result ≡ uses_only set.bits (view e.now) }
{
    match e {
        Expr::Prob { of, given, .. } => of.is_inside(set) && given.is_inside(set),
        Expr::Sum { over, body } => over.is_inside(set) && uses_only(body, set),
        Expr::Product(factors) => use_only(factors, set),
        Expr::Quotient { top, bottom } => uses_only(top, set) && uses_only(bottom, set),
        Expr::Named(_) => true,
    }
}

#[cycle(using)]
fn use_only(factors: &Vec<Expr>, set: VSet) -> bool
    ensures { result ≡ use_only set.bits (views factors.now.items) }
{
    for factor in factors {
        if !uses_only(factor, set) {
            return false;
        }
    }
    true
}

fn defs_use_only(defs: &Vec<Expr>, set: VSet) -> bool
    ensures { result ≡ defs_use_only set.bits (map view defs.now.items) }
{
    for def in defs {
        if !uses_only(def, set) {
            return false;
        }
    }
    true
}

/// Whether the terms and the sums of a formula have vertices of the set alone.
pub fn formula_uses_only(f: &Formula, set: VSet) -> bool
    ensures { result ≡ formula_uses_only set.bits (formula_view f.now) }
{
    defs_use_only(&f.defs, set) && uses_only(&f.main, set)
}
