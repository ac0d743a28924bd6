//! The factors of a formula over names.

ghost use Rattle.std.specs.Prelude.{ℕ, ◌≡◌, ◌≤◌, map, IfOk};
ghost use Rattle.mixed_graph.specs.Vocabulary.{has, Within};
ghost use Rattle.prob_expr.specs.Tree.{tree};
ghost use Rattle.prob_expr.specs.View.{view};
ghost use Rattle.prob_expr.specs.Vocabulary.{no_trees, views};
ghost use Rattle.treated_models.specs.Vocabulary.{name_count};
ghost use Rattle.factor_values.specs.Vocabulary.{factor_view, factors_view};
ghost use Rattle.named_factors.specs.Named.{IsFactorOf, IsFactorOfTerm, AreFactorsOf, AreNamedFactors, factors_in, body_in, summed_in};
ghost use Rattle.named_factors.specs.Shapes.{IsTerm, AreTerms, IsSumOfTerms};

use crate::names::{seen_of, vertices_of};
use factor_values::{Factor, Factors};
use mixed_graph::VSet;
use prob_expr::{Expr, Formula};
use std::alloc::{AllocError, Global};

/// The factor of a term P(of | given) over names.
fn factor_of_term(alloc: Global, n: u32, x: VSet, of: VSet, given: VSet) -> Factor
    requires few { name_count n x.bits ≤ 64 }
    requires within { Within n (has x.bits) }
    ensures { IsFactorOfTerm n x.bits of.bits given.bits (factor_view result) }
{
    let main = Expr::Prob {
        of: vertices_of(n, x, of),
        doing: VSet::EMPTY,
        given: vertices_of(n, x, given),
    };
    Factor {
        second: seen_of(n, x, of.union(given)),
        formula: Formula {
            defs: Vec::new(alloc),
            main,
        },
    }
}

/// The factor of a term.
fn factor_of(alloc: Global, n: u32, x: VSet, term: &Expr) -> Factor
    requires few { name_count n x.bits ≤ 64 }
    requires within { Within n (has x.bits) }
    requires term { IsTerm (view term.now) }
    ensures { IsFactorOf n x.bits (view term.now) (factor_view result) }
{
    match term {
        Expr::Prob { of, given, .. } => factor_of_term(alloc, n, x, *of, *given),
        Expr::Sum { .. } => unreachable!(),
        Expr::Product(_) => unreachable!(),
        Expr::Quotient { .. } => unreachable!(),
        Expr::Named(_) => unreachable!(),
    }
}

/// The factors of terms.
fn factors_of(alloc: Global, n: u32, x: VSet, terms: &[Expr]) -> Result<Vec<Factor>, AllocError>
    requires few { name_count n x.bits ≤ 64 }
    requires within { Within n (has x.bits) }
    requires terms { AreTerms (views terms.now) }
    ensures { IfOk result (λ made. AreFactorsOf n x.bits (views terms.now) (map factor_view made.items)) }
{
    let mut made = Vec::new(alloc);
    for term in terms {
        made.push(factor_of(alloc, n, x, term))?;
    }
    Ok(made)
}

/// The factor of one term, in a list.
fn one_factor(alloc: Global, n: u32, x: VSet, term: &Expr) -> Result<Vec<Factor>, AllocError>
    requires few { name_count n x.bits ≤ 64 }
    requires within { Within n (has x.bits) }
    requires term { IsTerm (view term.now) }
    ensures { IfOk result (λ made. AreFactorsOf n x.bits (tree (view term.now) no_trees) (map factor_view made.items)) }
{
    let mut made = Vec::new(alloc);
    made.push(factor_of(alloc, n, x, term))?;
    Ok(made)
}

/// The factors of a product of terms, or of one term.
fn factors_of_body(alloc: Global, n: u32, x: VSet, body: &Expr) -> Result<Vec<Factor>, AllocError>
    requires few { name_count n x.bits ≤ 64 }
    requires within { Within n (has x.bits) }
    requires terms { AreTerms (factors_in (view body.now)) }
    ensures { IfOk result (λ made. AreFactorsOf n x.bits (factors_in (view body.now)) (map factor_view made.items)) }
{
    match body {
        Expr::Product(terms) => factors_of(alloc, n, x, terms),
        Expr::Prob { .. } => one_factor(alloc, n, x, body),
        Expr::Sum { .. } => unreachable!(),
        Expr::Quotient { .. } => unreachable!(),
        Expr::Named(_) => unreachable!(),
    }
}

/// The factors of a tree that isn't a sum.
fn without_sum(alloc: Global, n: u32, x: VSet, main: &Expr) -> Result<Factors, AllocError>
    requires few { name_count n x.bits ≤ 64 }
    requires within { Within n (has x.bits) }
    requires terms { AreTerms (factors_in (view main.now)) }
    requires body { body_in (view main.now) ≡ view main.now }
    requires none { summed_in (view main.now) ≡ 0 }
    ensures { IfOk result (λ e. AreNamedFactors n x.bits (view main.now) (factors_view e)) }
{
    Ok(Factors {
        summed: VSet::EMPTY,
        factors: factors_of_body(alloc, n, x, main)?,
        given: VSet::EMPTY,
    })
}

/// The factors of a formula over the names of n vertices and the primed names of x: of a sum of a product of terms.
pub fn named_factors(alloc: Global, n: u32, x: VSet, main: &Expr) -> Result<Factors, AllocError>
    requires few { name_count n x.bits ≤ 64 }
    requires within { Within n (has x.bits) }
    requires terms { IsSumOfTerms (view main.now) }
    ensures { IfOk result (λ e. AreNamedFactors n x.bits (view main.now) (factors_view e)) }
{
    match main {
        Expr::Sum { over, body } => Ok(Factors {
            summed: *over,
            factors: factors_of_body(alloc, n, x, body)?,
            given: VSet::EMPTY,
        }),
        Expr::Prob { .. } => without_sum(alloc, n, x, main),
        Expr::Product(_) => without_sum(alloc, n, x, main),
        Expr::Quotient { .. } => unreachable!(),
        Expr::Named(_) => unreachable!(),
    }
}
