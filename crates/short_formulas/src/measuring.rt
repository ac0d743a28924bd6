//! The length of a formula.

ghost use Rattle.std.specs.Prelude.{◌≡◌, ◌+◌, map};
ghost use Rattle.prob_expr.specs.Vocabulary.{cap, views, formula_view};
ghost use Rattle.prob_expr.specs.View.{view};
ghost use Rattle.short_formulas.specs.Length.{size_of, length_of, length_of_each, length_of_all, formula_length};

use mixed_graph::VSet;
use prob_expr::{Expr, Formula};

/// Counts the members of a set.
fn count_members(set: VSet, so_far: u32) -> u32
    ensures { result ≡ cap (so_far + size_of set.bits) }
{
    so_far.saturating_add(set.count())
}

/// Counts a term, and the names in it.
fn count_term(of: VSet, doing: VSet, given: VSet, so_far: u32) -> u32
    ensures { result ≡ cap (so_far + (1 + (size_of of.bits + (size_of doing.bits + size_of given.bits)))) }
{
    let named = count_members(of, so_far.saturating_add(1));
    count_members(given, count_members(doing, named))
}

/// Adds the length of an expression.
#[cycle(count)]
fn count_expr(e: &Expr, so_far: u32) -> u32
    ensures { result ≡ cap (so_far + length_of (view e.now)) }
{
    match e {
        Expr::Prob { of, doing, given } => count_term(*of, *doing, *given, so_far),
        Expr::Sum { over, body } => count_expr(body, count_members(*over, so_far)),
        Expr::Product(factors) => count_factors(factors, so_far),
        Expr::Quotient { top, bottom } => count_expr(bottom, count_expr(top, so_far)),
        Expr::Named(_) => so_far.saturating_add(1),
    }
}

/// Adds the lengths of factors.
#[cycle(count)]
fn count_factors(factors: &Vec<Expr>, so_far: u32) -> u32
    ensures { result ≡ cap (so_far + length_of_each (views factors.now.items)) }
{
    let mut count = so_far;
    for factor in factors {
        count = count_expr(factor, count);
    }
    count
}

/// Adds the lengths of definitions.
fn count_defs(defs: &Vec<Expr>) -> u32
    ensures { result ≡ cap (length_of_all (map view defs.now.items)) }
{
    let mut count = 0;
    for def in defs {
        count = count_expr(def, count);
    }
    count
}

/// The length of a formula: its terms and citations, the names in its terms, and those of its sums.
///
/// A number that would pass the last of 32 bits is given as that.
pub fn length(f: &Formula) -> u32
    ensures { result ≡ cap (formula_length (formula_view f.now)) }
{
    count_expr(&f.main, count_defs(&f.defs))
}
