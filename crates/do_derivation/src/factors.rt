//! The factors of a product.

ghost use Rattle.std.specs.Prelude.{◌≡◌, true, IfOk, OnOk};
ghost use Rattle.prob_expr.specs.Tree.{product, tree};
ghost use Rattle.prob_expr.specs.Vocabulary.{no_trees, views};
ghost use Rattle.prob_expr.specs.View.{view};
ghost use Rattle.do_derivation.specs.Shapes.{has_product, flat, appended, as_one};

use prob_expr::Expr;
use std::alloc::{AllocError, Global};

/// Whether a factor is a product.
pub fn has_product(factors: &Vec<Expr>) -> bool
    ensures { result ≡ has_product (views factors.now.items) }
{
    for factor in factors {
        if let Expr::Product(_) = factor {
            return true;
        }
    }
    false
}

/// Whether the expression is a product.
fn is_product(e: &Expr) -> bool
    ensures { result ≡ has_product (tree (view e.now) no_trees) }
{
    matches!(e, Expr::Product(_))
}

/// The factors of a product.
fn factors_of(e: Expr) -> Vec<Expr>
    requires { has_product (tree (view e) no_trees) ≡ true }
    ensures { view e ≡ product (views result.items) }
{
    match e {
        Expr::Product(factors) => factors,
        _ => unreachable!(),
    }
}

/// One factor as it is, several as a product.
pub fn as_one(factors: Vec<Expr>) -> Expr
    ensures { view result ≡ as_one (views factors.items) }
{
    let mut factors = factors;
    if factors.len() != 1 {
        return Expr::Product(factors);
    }
    match factors.pop() {
        Some(factor) => factor,
        None => unreachable!(),
    }
}

/// Puts the factors of a product, or another factor, behind the others.
fn push_flat(made: &mut Vec<Expr>, factor: Expr) -> Result<(), AllocError>
    ensures { OnOk result (views made.new.items ≡ appended (views made.old.items) (flat (tree (view factor) no_trees))) }
{
    if is_product(&factor) {
        made.append(&mut factors_of(factor))?;
    } else {
        made.push(factor)?;
    }
    Ok(())
}

/// The factors, each product replaced by its own.
#[tactic(auto, using(crate::proofs::Lists::flat_more))]
pub fn flat(alloc: Global, factors: Vec<Expr>) -> Result<Vec<Expr>, AllocError>
    ensures { IfOk result (λ made. views made.items ≡ flat (views factors.items)) }
{
    let mut made = Vec::with_capacity(alloc, factors.len())?;
    for factor in factors {
        push_flat(&mut made, factor)?;
    }
    Ok(made)
}
