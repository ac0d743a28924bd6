//! The product of the factors of the districts.

ghost use Rattle.std.specs.Prelude.{◌≡◌, IfOk};
ghost use Rattle.prob_expr.specs.View.{view};
ghost use Rattle.prob_expr.specs.Vocabulary.{views};
ghost use Rattle.identification_theory.specs.Vocabulary.{product_of};

use do_derivation::flat;
use prob_expr::Expr;
use std::alloc::{AllocError, Global};

/// One factor as it is; several as a product, in which a factor that is a product is replaced by its factors.
pub fn product_of(alloc: Global, factors: Vec<Expr>) -> Result<Expr, AllocError>
    ensures { IfOk result (λ e. view e ≡ product_of (views factors.items)) }
{
    let mut factors = factors;
    if factors.len() != 1 {
        return Ok(Expr::Product(flat(alloc, factors)?));
    }
    match factors.pop() {
        Some(factor) => Ok(factor),
        None => unreachable!(),
    }
}
