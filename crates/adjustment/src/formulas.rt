//! The adjustment formula.

ghost use Rattle.std.specs.Prelude.{◌≡◌, IfOk};
ghost use Rattle.mixed_graph.specs.Vocabulary.{union};
ghost use Rattle.prob_expr.specs.Tree.{prob, tree};
ghost use Rattle.prob_expr.specs.Vocabulary.{no_trees, views, formula_view};
ghost use Rattle.prob_expr.specs.View.{view};
ghost use Rattle.adjustment.specs.Formulas.{adjusted_sum, adjustment_formula};

use mixed_graph::VSet;
use prob_expr::{Expr, Formula};
use std::alloc::{AllocError, Global};

/// P(of | given).
fn observed(of: VSet, given: VSet) -> Expr
    ensures { view result ≡ prob of.bits 0 given.bits }
{
    Expr::Prob {
        of,
        doing: VSet::EMPTY,
        given,
    }
}

/// The factors P(z) and P(y | x, z).
fn factors(alloc: Global, x: VSet, y: VSet, z: VSet) -> Result<Vec<Expr>, AllocError>
    ensures { IfOk result (λ v. views v.items ≡ tree (prob z.bits 0 0) (tree (prob y.bits 0 (union x.bits z.bits)) no_trees)) }
{
    let mut factors = Vec::new(alloc);
    factors.push(observed(z, VSet::EMPTY))?;
    factors.push(observed(y, x.union(z)))?;
    Ok(factors)
}

/// The sum over z of P(z) * P(y | x, z).
fn adjusted_sum(alloc: Global, x: VSet, y: VSet, z: VSet) -> Result<Expr, AllocError>
    ensures { IfOk result (λ e. view e ≡ adjusted_sum x.bits y.bits z.bits) }
{
    let product = Expr::Product(factors(alloc, x, y, z)?);
    Ok(Expr::Sum {
        over: z,
        body: Box::new(alloc, product)?,
    })
}

/// The adjustment formula: the sum over z of P(z) * P(y | x, z), and P(y | x) for an empty z.
///
/// Where `adjusts` or `back_door` says yes, it is the effect of x on y in each positive model
/// (Pearl, Causality, section 3.3).
pub fn formula_for(alloc: Global, x: VSet, y: VSet, z: VSet) -> Result<Formula, AllocError>
    ensures { IfOk result (λ f. formula_view f ≡ adjustment_formula x.bits y.bits z.bits) }
{
    if z.is_empty() {
        return Ok(Formula {
            defs: Vec::new(alloc),
            main: observed(y, x),
        });
    }
    let main = adjusted_sum(alloc, x, y, z)?;
    Ok(Formula {
        defs: Vec::new(alloc),
        main,
    })
}
