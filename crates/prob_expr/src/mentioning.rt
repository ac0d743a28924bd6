//! The vertices that a formula names.

ghost use Rattle.std.specs.Prelude.{◌≡◌, map};
ghost use Rattle.prob_expr.specs.Mentioned.{mentioned, mentioned_in, mentioned_in_any, mentioned_in_defs};
ghost use Rattle.prob_expr.specs.View.{view, views, formula_view};

use crate::expr::{Expr, Formula};
use mixed_graph::VSet;

/// The vertices that an expression names in a term or in a sum.
#[cycle(mention)]
fn mentioned_in(e: &Expr) -> VSet
    ensures { result.bits ≡ mentioned_in (view e.now) }
{
    match e {
        Expr::Prob { of, doing, given } => of.union(*doing).union(*given),
        Expr::Sum { over, body } => over.union(mentioned_in(body)),
        Expr::Product(factors) => mentioned_in_factors(factors),
        Expr::Quotient { top, bottom } => mentioned_in(top).union(mentioned_in(bottom)),
        Expr::Named(_) => VSet::EMPTY,
    }
}

/// Those that some factor names.
#[cycle(mention)]
fn mentioned_in_factors(factors: &Vec<Expr>) -> VSet
    ensures { result.bits ≡ mentioned_in_any (views factors.now.items) }
{
    let mut all = VSet::EMPTY;
    for factor in factors {
        all = all.union(mentioned_in(factor));
    }
    all
}

/// Those that some definition names.
fn mentioned_in_defs(defs: &Vec<Expr>) -> VSet
    ensures { result.bits ≡ mentioned_in_defs (map view defs.now.items) }
{
    let mut all = VSet::EMPTY;
    for def in defs {
        all = all.union(mentioned_in(def));
    }
    all
}

/// The vertices that a formula names in a term or in a sum.
pub fn mentioned(f: &Formula) -> VSet
    ensures { result.bits ≡ mentioned (formula_view f.now) }
{
    mentioned_in_defs(&f.defs).union(mentioned_in(&f.main))
}
