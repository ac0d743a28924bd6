//! The sums that the terms of a formula are made of.

ghost use Rattle.std.specs.Prelude.{◌≡◌, ◌≤◌};
ghost use Rattle.count_table.specs.Vocabulary.{cells_in};

use count_table::sum_tables::SumTables;
use mixed_graph::VSet;
use prob_expr::{Expr, Formula};
use std::alloc::{AllocError, Global};

/// Makes tables of the sums that the terms of an expression are made of, as long as there is room: as many as have at most
/// `most` cells together.
#[cycle(add_terms)]
pub(crate) fn add_terms(
    sums: &mut SumTables,
    alloc: Global,
    e: &Expr,
    most: usize,
) -> Result<(), AllocError>
    ensures table { sums.new.table ≡ sums.old.table }
    ensures most { cells_in sums.old ≤ most → cells_in sums.new ≤ most }
{
    match e {
        Expr::Prob { of, given, .. } => {
            add_one(sums, alloc, *given, most)?;
            add_one(sums, alloc, of.union(*given), most)
        }
        Expr::Sum { body, .. } => add_terms(sums, alloc, body, most),
        Expr::Product(factors) => add_factors(sums, alloc, factors, most),
        Expr::Quotient { top, bottom } => {
            add_terms(sums, alloc, top, most)?;
            add_terms(sums, alloc, bottom, most)
        }
        Expr::Named(_) => Ok(()),
    }
}

#[cycle(add_terms)]
fn add_factors(
    sums: &mut SumTables,
    alloc: Global,
    factors: &Vec<Expr>,
    most: usize,
) -> Result<(), AllocError>
    ensures table { sums.new.table ≡ sums.old.table }
    ensures most { cells_in sums.old ≤ most → cells_in sums.new ≤ most }
{
    for factor in factors {
        add_terms(sums, alloc, factor, most)?;
    }
    Ok(())
}

/// The sums over a set, if there is room.
fn add_one(sums: &mut SumTables, alloc: Global, of: VSet, most: usize) -> Result<(), AllocError>
    ensures table { sums.new.table ≡ sums.old.table }
    ensures most { cells_in sums.old ≤ most → cells_in sums.new ≤ most }
{
    sums.add(alloc, of, most)
}

/// Makes tables of the sums that the terms of a formula are made of, as long as there is room.
pub(crate) fn add_formula(
    sums: &mut SumTables,
    alloc: Global,
    f: &Formula,
    most: usize,
) -> Result<(), AllocError>
    ensures table { sums.new.table ≡ sums.old.table }
    ensures most { cells_in sums.old ≤ most → cells_in sums.new ≤ most }
{
    for def in &f.defs {
        add_terms(sums, alloc, def, most)?;
    }
    add_terms(sums, alloc, &f.main, most)
}
