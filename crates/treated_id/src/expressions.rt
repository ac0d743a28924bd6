//! Sums and terms that are left out where their set is empty.

ghost use Rattle.std.specs.Prelude.{◌≡◌, IfOk};
ghost use Rattle.identification_theory.specs.Vocabulary.{sum_if};
ghost use Rattle.prob_expr.specs.View.{view};
ghost use Rattle.prob_expr.specs.Vocabulary.{views};
ghost use Rattle.treated_id.specs.Terms.{with_first};

use mixed_graph::VSet;
use prob_expr::Expr;
use std::alloc::{AllocError, Global};

/// The sum over a set, where it isn't empty.
pub fn sum_if(alloc: Global, over: VSet, body: Expr) -> Result<Expr, AllocError>
    ensures { IfOk result (λ e. view e ≡ sum_if over.bits (view body)) }
{
    if over.is_empty() {
        return Ok(body);
    }
    Ok(Expr::Sum {
        over,
        body: Box::new(alloc, body)?,
    })
}

/// The terms behind P(rest | given), where there is a rest.
pub fn with_first(
    alloc: Global,
    rest: VSet,
    given: VSet,
    terms: Vec<Expr>,
) -> Result<Vec<Expr>, AllocError>
    ensures { IfOk result (λ ts. views ts.items ≡ with_first rest.bits given.bits (views terms.items)) }
{
    if rest.is_empty() {
        return Ok(terms);
    }
    let first = Expr::Prob {
        of: rest,
        doing: VSet::EMPTY,
        given,
    };
    let mut terms = terms;
    let mut all = vec![in alloc; first]?;
    all.append(&mut terms)?;
    Ok(all)
}
