//! The evaluation of a formula at a cell, node by node.

ghost use Rattle.std.specs.Prelude.{ℕ, ◌≡◌, ◌≤◌, map, length, true};
ghost use Rattle.mixed_graph.specs.Vocabulary.{has};
ghost use Rattle.prob_expr.specs.Tree.{product};
ghost use Rattle.prob_expr.specs.View.{view};
ghost use Rattle.prob_expr.specs.Vocabulary.{views};
ghost use Rattle.count_table.specs.Vocabulary.{AreCounts, HasLevels};
ghost use Rattle.count_eval.specs.Evaluated.{term_outcome};
ghost use Rattle.count_eval.specs.Laws.{IsUsed, AreUsed};
ghost use Rattle.count_eval.specs.Programs.{weights_in, is_used, cell_of, seen, seen_so_far, seen_more, IsBelow, AreBelow};
ghost use Rattle.count_eval.specs.Rules.{rule};
ghost use Rattle.count_eval.specs.Spots.{IsScope, limit_of, value_at, cells_from};

use crate::failure::Failure;
use crate::joining::{Joint, join_more, join_outcome, or_zero, outcome, whole, zero_so_far};
use crate::lookup::Lookup;
use crate::nodes::{next_node, node_behind};
use crate::spot::Spot;
use mixed_graph::VSet;
use prob_expr::Expr;
use quantity::{Quantity, QuantityFault};

/// What an evaluation is over: where it looks up, the number of vertices, and the definitions; and whether a product with a
/// factor 0 is 0 also where other factors have no value.
#[derive(Drop)]
pub struct Scope<'a, L> {
    pub lookup: &'a L,
    pub n: u32,
    pub defs: &'a [Expr],
    pub zero: bool,
}

/// A sum: where it stands, and the vertices that it runs through.
#[derive(Clone, Copy)]
pub struct Summing {
    pub at: Spot,
    pub over: VSet,
}

/// The value of a term.
fn term<Q: Quantity, L: Lookup<Q>>(
    scope: &Scope<L>,
    of: VSet,
    doing: VSet,
    given: VSet,
    at: Spot,
) -> Result<Q, Failure>
    requires table { AreCounts (L.counts scope.now.lookup.now) }
    requires of { (v : ℕ) → has of.bits v ≡ true → is_used (L.counts scope.now.lookup.now) v ≡ true }
    requires given { (v : ℕ) → has given.bits v ≡ true → is_used (L.counts scope.now.lookup.now) v ≡ true }
    requires levels { HasLevels (L.counts scope.now.lookup.now) (is_used (L.counts scope.now.lookup.now)) at.cell }
    ensures { seen Q.numbers result ≡ term_outcome (rule Q.kind scope.now.zero) (weights_in scope.now.n (L.counts scope.now.lookup.now)) at.def at.node of.bits doing.bits given.bits (cell_of at.cell) }
{
    let cell = at.cell;
    let bottom = scope.lookup.sum(given, &cell);
    if bottom == 0 {
        let why = QuantityFault::ZeroBelow;
        return Err(Failure { why, at });
    }
    let top = scope.lookup.sum(of.union(given), &cell);
    Ok(Q::from_ratio(top, bottom))
}

/// The value of an expression whose root is there. It may name the definitions before its own, and the main expression all.
#[cycle(evaluate)]
pub fn value_at<Q: Quantity, L: Lookup<Q>>(
    scope: &Scope<L>,
    e: &Expr,
    at: Spot,
) -> Result<Q, Failure>
    requires scope { IsScope (rule Q.kind scope.now.zero) scope.now.n (L.counts scope.now.lookup.now) (map view scope.now.defs.now) (L.holds scope.now.lookup.now) }
    requires limit { limit_of (map view scope.now.defs.now) at.def ≤ length scope.now.defs.now }
    requires below { IsBelow (limit_of (map view scope.now.defs.now) at.def) (view e.now) }
    requires used { IsUsed (is_used (L.counts scope.now.lookup.now)) (view e.now) }
    requires levels { HasLevels (L.counts scope.now.lookup.now) (is_used (L.counts scope.now.lookup.now)) at.cell }
    ensures { seen Q.numbers result ≡ value_at (rule Q.kind scope.now.zero) (weights_in scope.now.n (L.counts scope.now.lookup.now)) (map view scope.now.defs.now) at (view e.now) }
{
    match e {
        Expr::Prob { of, doing, given } => term(scope, *of, *doing, *given, at),
        Expr::Sum { over, body } => {
            let sum = Summing { at, over: *over };
            let total = cells_from(scope, sum, body, 0, at.cell, None);
            whole(Q::from_ratio(0, 1), total)
        }
        Expr::Product(factors) => product_at(scope, factors, at),
        Expr::Quotient { top, bottom } => {
            let first = next_node(at.node);
            let a: Q = value_at(scope, top, Spot { node: first, ..at })?;
            let second = node_behind(top, first);
            let b: Q = value_at(scope, bottom, Spot { node: second, ..at })?;
            outcome(a.div(&b), at)
        }
        Expr::Named(k) => {
            let cell = at.cell;
            if let Some(q) = scope.lookup.definition(*k, &cell) {
                return Ok(q);
            }
            let def = Some(*k);
            let root = Spot { def, node: 0, cell };
            value_at(scope, &scope.defs[*k as usize], root)
        }
    }
}

/// What there is so far, with the body at all cells that differ from `cell` in the summed vertices from v on.
#[cycle(evaluate)]
fn cells_from<Q: Quantity, L: Lookup<Q>>(
    scope: &Scope<L>,
    sum: Summing,
    body: &Expr,
    v: u8,
    cell: [u32; 64],
    so_far: Option<Q>,
) -> Result<Option<Q>, Failure>
    requires scope { IsScope (rule Q.kind scope.now.zero) scope.now.n (L.counts scope.now.lookup.now) (map view scope.now.defs.now) (L.holds scope.now.lookup.now) }
    requires limit { limit_of (map view scope.now.defs.now) sum.at.def ≤ length scope.now.defs.now }
    requires below { IsBelow (limit_of (map view scope.now.defs.now) sum.at.def) (view body.now) }
    requires used { IsUsed (is_used (L.counts scope.now.lookup.now)) (view body.now) }
    requires levels { HasLevels (L.counts scope.now.lookup.now) (is_used (L.counts scope.now.lookup.now)) cell }
    requires vertex { v ≤ scope.now.n }
    ensures { seen_more Q.numbers result ≡ cells_from (rule Q.kind scope.now.zero) (weights_in scope.now.n (L.counts scope.now.lookup.now)) (map view scope.now.defs.now) sum (view body.now) v cell (seen_so_far Q.numbers so_far) }
{
    if u32::from(v) >= scope.n {
        let at = sum.at;
        let node = next_node(at.node);
        let q: Q = value_at(scope, body, Spot { node, cell, ..at })?;
        return join_more(Joint::Adding, so_far, q, at);
    }
    if !sum.over.has(v) {
        return cells_from(scope, sum, body, v + 1, cell, so_far);
    }
    let mut total = so_far;
    for x in 0..scope.lookup.levels(v) {
        let mut inner = cell;
        inner[v as usize] = x;
        match cells_from(scope, sum, body, v + 1, inner, total) {
            Ok(more) => {
                total = more;
            }
            Err(failure) => {
                return Err(failure);
            }
        }
    }
    Ok(total)
}

/// The value of a product of these factors.
#[cycle(evaluate)]
fn product_at<Q: Quantity, L: Lookup<Q>>(
    scope: &Scope<L>,
    factors: &Vec<Expr>,
    at: Spot,
) -> Result<Q, Failure>
    requires scope { IsScope (rule Q.kind scope.now.zero) scope.now.n (L.counts scope.now.lookup.now) (map view scope.now.defs.now) (L.holds scope.now.lookup.now) }
    requires limit { limit_of (map view scope.now.defs.now) at.def ≤ length scope.now.defs.now }
    requires below { AreBelow (limit_of (map view scope.now.defs.now) at.def) (views factors.now.items) }
    requires used { AreUsed (is_used (L.counts scope.now.lookup.now)) (views factors.now.items) }
    requires levels { HasLevels (L.counts scope.now.lookup.now) (is_used (L.counts scope.now.lookup.now)) at.cell }
    ensures { seen Q.numbers result ≡ value_at (rule Q.kind scope.now.zero) (weights_in scope.now.n (L.counts scope.now.lookup.now)) (map view scope.now.defs.now) at (product (views factors.now.items)) }
{
    let mut so_far: Result<Option<Q>, Failure> = Ok(None);
    let mut some_zero = false;
    let mut next = next_node(at.node);
    for factor in factors {
        let inner = Spot { node: next, ..at };
        let value: Result<Q, Failure> = value_at(scope, factor, inner);
        some_zero = zero_so_far(some_zero, &value);
        so_far = join_outcome(Joint::Multiplying, so_far, value, at);
        next = node_behind(factor, next);
    }
    or_zero(scope.zero, some_zero, whole(Q::from_ratio(1, 1), so_far))
}
