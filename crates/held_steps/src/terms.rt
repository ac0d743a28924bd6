//! Whether an expression is made of terms.

ghost use Rattle.std.specs.Prelude.{◌≡◌, ◌≤◌};
ghost use Rattle.prob_expr.specs.Vocabulary.{are_terms, are_terms_each, views};
ghost use Rattle.prob_expr.specs.View.{view};

use prob_expr::{Expr, are_term_sets};

/// Whether each term of an expression on n vertices is one, and the set of each sum is below n.
#[cycle(terms)]
pub fn are_terms(n: u32, e: &Expr) -> bool
    requires { n ≤ 64 }
    ensures { result ≡ are_terms n (view e.now) }
{
    match e {
        Expr::Prob { of, doing, given } => {
            are_term_sets(n, *of, *doing, *given) && !of.is_empty()
        }
        Expr::Sum { over, body } => over.is_below(n) && are_terms(n, body),
        Expr::Product(factors) => are_terms_each(n, factors),
        Expr::Quotient { top, bottom } => are_terms(n, top) && are_terms(n, bottom),
        Expr::Named(_) => true,
    }
}

/// Whether those of each factor are.
#[cycle(terms)]
fn are_terms_each(n: u32, factors: &Vec<Expr>) -> bool
    requires { n ≤ 64 }
    ensures { result ≡ are_terms_each n (views factors.now.items) }
{
    for factor in factors {
        if !are_terms(n, factor) {
            return false;
        }
    }
    true
}
