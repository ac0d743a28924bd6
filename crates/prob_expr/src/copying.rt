//! A copy of an expression.

ghost use Rattle.std.specs.Prelude.{◌≡◌, IfOk};
ghost use Rattle.prob_expr.specs.View.{view, views};

use crate::expr::Expr;
use std::alloc::{AllocError, Global};

/// An equal expression.
#[cycle(copy)]
pub fn copy_expr(alloc: Global, e: &Expr) -> Result<Expr, AllocError>
    ensures { IfOk result (λ v. view v ≡ view e.now) }
{
    match e {
        Expr::Prob { of, doing, given } => Ok(Expr::Prob {
            of: *of,
            doing: *doing,
            given: *given,
        }),
        Expr::Sum { over, body } => Ok(Expr::Sum {
            over: *over,
            body: Box::new(alloc, copy_expr(alloc, body)?)?,
        }),
        Expr::Product(factors) => Ok(Expr::Product(copy_factors(alloc, factors)?)),
        Expr::Quotient { top, bottom } => {
            let top = Box::new(alloc, copy_expr(alloc, top)?)?;
            Ok(Expr::Quotient {
                top,
                bottom: Box::new(alloc, copy_expr(alloc, bottom)?)?,
            })
        }
        Expr::Named(k) => Ok(Expr::Named(*k)),
    }
}

#[cycle(copy)]
fn copy_factors(alloc: Global, factors: &Vec<Expr>) -> Result<Vec<Expr>, AllocError>
    ensures { IfOk result (λ v. views v.items ≡ views factors.now.items) }
{
    let mut copies = Vec::with_capacity(alloc, factors.len())?;
    for factor in factors {
        copies.push(copy_expr(alloc, factor)?)?;
    }
    Ok(copies)
}
