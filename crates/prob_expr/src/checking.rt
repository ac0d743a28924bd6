//! The first fault of a formula.

ghost use Rattle.std.specs.Prelude.{◌≡◌, ◌≤◌, map};
ghost use Rattle.prob_expr.specs.TermSets.{are_term_sets};
ghost use Rattle.prob_expr.specs.View.{view, views, formula_view};
ghost use Rattle.prob_expr.specs.Check.{next_node, cap, check_tree, check_trees, fault_of, fault_in, fault_in_defs};

use crate::expr::{Expr, Formula, Place};
use finite_models::cap;
use mixed_graph::VSet;

/// What keeps a formula from being one.
#[derive(Clone, Copy, Debug, PartialEq, Eq)]
pub enum ExprFault {
    /// Sets at that place that overlap or aren't below the number of vertices.
    Sets(Place),
    /// A term or a sum over no vertex, or a product of fewer than two factors.
    Empty(Place),
    /// Definition k names itself or a later one; or main names one that isn't there, and k is the number of definitions.
    Forward(u32),
}

/// Whether the three sets are below n, and no two of them meet.
pub fn are_term_sets(n: u32, of: VSet, doing: VSet, given: VSet) -> bool
    requires { n ≤ 64 }
    ensures { result ≡ are_term_sets n of.bits doing.bits given.bits }
{
    of.is_below(n)
        && doing.is_below(n)
        && given.is_below(n)
        && of.is_apart(doing)
        && of.is_apart(given)
        && doing.is_apart(given)
}

// The number of the node after this one in preorder.
fn next_node(node: u32) -> u32
    ensures { result ≡ next_node node }
{
    node.saturating_add(1)
}

/// Checks an expression that begins at a node of definition `def` and may name the definitions below `limit`: the number of the node behind it, or the first fault in preorder.
#[cycle(check)]
pub fn check_expr(
    e: &Expr,
    n: u32,
    def: Option<u32>,
    limit: usize,
    node: u32,
) -> Result<u32, ExprFault>
    requires { n ≤ 64 }
    ensures { result ≡ check_tree n def limit (view e.now) node }
{
    let place = Place { def, node };
    match e {
        Expr::Prob { of, doing, given } => {
            if !are_term_sets(n, *of, *doing, *given) {
                return Err(ExprFault::Sets(place));
            }
            if of.is_empty() {
                return Err(ExprFault::Empty(place));
            }
            Ok(next_node(node))
        }
        Expr::Sum { over, body } => {
            if !over.is_below(n) {
                return Err(ExprFault::Sets(place));
            }
            if over.is_empty() {
                return Err(ExprFault::Empty(place));
            }
            check_expr(body, n, def, limit, next_node(node))
        }
        Expr::Product(factors) => {
            if factors.len() < 2 {
                return Err(ExprFault::Empty(place));
            }
            check_factors(factors, n, def, limit, next_node(node))
        }
        Expr::Quotient { top, bottom } => {
            let after = check_expr(top, n, def, limit, next_node(node))?;
            check_expr(bottom, n, def, limit, after)
        }
        Expr::Named(k) => {
            if *k as usize >= limit {
                return Err(ExprFault::Forward(cap(limit)));
            }
            Ok(next_node(node))
        }
    }
}

#[cycle(check)]
fn check_factors(
    factors: &Vec<Expr>,
    n: u32,
    def: Option<u32>,
    limit: usize,
    first: u32,
) -> Result<u32, ExprFault>
    requires { n ≤ 64 }
    ensures { result ≡ check_trees n def limit (views factors.now.items) first }
{
    let mut node = first;
    for factor in factors {
        node = check_expr(factor, n, def, limit, node)?;
    }
    Ok(node)
}

fn check_defs(defs: &Vec<Expr>, n: u32) -> Result<(), ExprFault>
    requires { n ≤ 64 }
    ensures { fault_of result ≡ fault_in_defs n 0 (map view defs.now.items) }
{
    let mut k = 0;
    for def in defs {
        check_expr(def, n, Some(cap(k)), k, 0)?;
        k += 1;
    }
    Ok(())
}

/// The first fault of a formula on n vertices: of its definitions in order, then of main, each in
/// preorder. At one node a fault of the sets comes first.
pub fn check(f: &Formula, n: u32) -> Result<(), ExprFault>
    requires { n ≤ 64 }
    ensures { fault_of result ≡ fault_in n (formula_view f.now) }
{
    check_defs(&f.defs, n)?;
    check_expr(&f.main, n, None, f.defs.len(), 0)?;
    Ok(())
}
