//! Whether two expressions are the same tree.

ghost use Rattle.std.specs.Prelude.{◌≡◌, ◌↔◌, IsTrue};
ghost use Rattle.prob_expr.specs.View.{view, views};
ghost use Rattle.prob_expr.specs.Same.{same_tree, same_trees};

use crate::expr::Expr;

#[cycle(same)]
fn same_expr(a: &Expr, b: &Expr) -> bool
    ensures { result ≡ same_tree (view a.now) (view b.now) }
{
    match a {
        Expr::Prob { of, doing, given } => {
            let Expr::Prob {
                of: of_b,
                doing: doing_b,
                given: given_b,
            } = b
            else {
                return false;
            };
            of.bits == of_b.bits && doing.bits == doing_b.bits && given.bits == given_b.bits
        }
        Expr::Sum { over, body } => {
            let Expr::Sum {
                over: over_b,
                body: body_b,
            } = b
            else {
                return false;
            };
            over.bits == over_b.bits && same_expr(body, body_b)
        }
        Expr::Product(factors) => {
            let Expr::Product(factors_b) = b else {
                return false;
            };
            same_factors(factors, factors_b)
        }
        Expr::Quotient { top, bottom } => {
            let Expr::Quotient {
                top: top_b,
                bottom: bottom_b,
            } = b
            else {
                return false;
            };
            same_expr(top, top_b) && same_expr(bottom, bottom_b)
        }
        Expr::Named(k) => {
            let Expr::Named(k_b) = b else {
                return false;
            };
            k == k_b
        }
    }
}

#[tactic(auto, using(crate::proofs::SameTrees::other_lengths))]
#[cycle(same)]
fn same_factors(a: &Vec<Expr>, b: &Vec<Expr>) -> bool
    ensures { result ≡ same_trees (views a.now.items) (views b.now.items) }
{
    if a.len() != b.len() {
        return false;
    }
    for (i, x) in a.iter().enumerate() {
        if !same_expr(x, &b[i]) {
            return false;
        }
    }
    true
}

/// Whether two expressions are the same tree.
pub fn is_same(a: &Expr, b: &Expr) -> bool
    ensures { IsTrue result ↔ (view a.now ≡ view b.now) }
{
    same_expr(a, b)
}
