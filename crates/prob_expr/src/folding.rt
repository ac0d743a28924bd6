//! A walk over an expression by a `Fold`.

ghost use Rattle.std.specs.Prelude.{IsTrue};
ghost use Rattle.prob_expr.specs.View.{view, views};
ghost use Rattle.prob_expr.specs.Fold.{Meaning, Folds, FoldsFirst, has_factors, are_some};

use crate::expr::Expr;
use crate::visiting::Fold;

/// Walks an expression, children first and from left to right, and ends at the first fault.
///
/// A product is `start` on its first factor, and then `factor` on each next.
#[cycle(fold)]
pub fn fold<F: Fold>(e: &Expr, f: &mut F) -> Result<F::Out, F::Fault>
    requires { IsTrue (has_factors (view e.now)) }
    ensures { Folds (record { prob_does = F.prob_does; sum_does = F.sum_does; start_does = F.start_does; factor_does = F.factor_does; quotient_does = F.quotient_does; named_does = F.named_does }) (view e.now) f.old result f.new }
{
    match e {
        Expr::Prob { of, doing, given } => f.prob(*of, *doing, *given),
        Expr::Sum { over, body } => match fold(body, f) {
            Ok(body) => f.sum(*over, body),
            Err(fault) => Err(fault),
        },
        Expr::Product(factors) => fold_factors(factors, f),
        Expr::Quotient { top, bottom } => {
            let top = match fold(top, f) {
                Ok(top) => top,
                Err(fault) => return Err(fault),
            };
            match fold(bottom, f) {
                Ok(bottom) => f.quotient(top, bottom),
                Err(fault) => Err(fault),
            }
        }
        Expr::Named(k) => f.named(*k),
    }
}

#[cycle(fold)]
fn fold_factors<F: Fold>(factors: &Vec<Expr>, f: &mut F) -> Result<F::Out, F::Fault>
    requires { IsTrue (are_some (views factors.now.items)) }
    ensures { FoldsFirst (record { prob_does = F.prob_does; sum_does = F.sum_does; start_does = F.start_does; factor_does = F.factor_does; quotient_does = F.quotient_does; named_does = F.named_does }) (views factors.now.items) f.old result f.new }
{
    let first = match fold(&factors[0], f) {
        Ok(first) => first,
        Err(fault) => return Err(fault),
    };
    let mut so_far = match f.start(first) {
        Ok(so_far) => so_far,
        Err(fault) => return Err(fault),
    };
    for i in 1..factors.len() {
        let next = match fold(&factors[i], f) {
            Ok(next) => next,
            Err(fault) => return Err(fault),
        };
        so_far = match f.factor(so_far, next) {
            Ok(more) => more,
            Err(fault) => return Err(fault),
        };
    }
    Ok(so_far)
}
