//! The numbers of nodes, in preorder.

ghost use Rattle.std.specs.Prelude.{◌≡◌};
ghost use Rattle.prob_expr.specs.View.{view};
ghost use Rattle.prob_expr.specs.Vocabulary.{views, next_node as node_next};
ghost use Rattle.count_eval.specs.Evaluated.{node_behind as behind_of, node_behind_all as behind_all};

use prob_expr::Expr;

/// The number of the node after this one in preorder.
pub fn next_node(node: u32) -> u32
    ensures { result ≡ node_next node }
{
    node.saturating_add(1)
}

/// The number of the node behind an expression that begins at a node.
#[cycle(count)]
pub fn node_behind(e: &Expr, node: u32) -> u32
    ensures { result ≡ behind_of (view e.now) node }
{
    match e {
        Expr::Prob { .. } => next_node(node),
        Expr::Sum { over: _, body } => node_behind(body, next_node(node)),
        Expr::Product(factors) => behind_factors(factors, next_node(node)),
        Expr::Quotient { top, bottom } => node_behind(bottom, node_behind(top, next_node(node))),
        Expr::Named(_) => next_node(node),
    }
}

#[cycle(count)]
fn behind_factors(factors: &Vec<Expr>, first: u32) -> u32
    ensures { result ≡ behind_all (views factors.now.items) first }
{
    let mut node = first;
    for factor in factors {
        node = node_behind(factor, node);
    }
    node
}
