//! The free variables of a formula.

ghost use Rattle.std.specs.Prelude.{◌≡◌, [], IfOk, get_or, map};
ghost use Rattle.prob_expr.specs.Listed.{masks_of};
ghost use Rattle.prob_expr.specs.View.{view, views, formula_view};
ghost use Rattle.prob_expr.specs.Free.{free_in, free_in_any, free_in_defs, free_of};

use crate::expr::{Expr, Formula};
use mixed_graph::VSet;
use std::alloc::{AllocError, Global};

#[cycle(free_expr)]
fn free_expr(e: &Expr, sets: &[VSet]) -> VSet
    ensures { result.bits ≡ free_in (masks_of sets.now) (view e.now) }
{
    match e {
        Expr::Prob { of, doing, given } => of.union(*doing).union(*given),
        Expr::Sum { over, body } => free_expr(body, sets).difference(*over),
        Expr::Product(factors) => free_factors(factors, sets),
        Expr::Quotient { top, bottom } => free_expr(top, sets).union(free_expr(bottom, sets)),
        Expr::Named(k) => set_at(sets, *k),
    }
}

// The set of a definition; none is there only if the formula isn't checked.
fn set_at(sets: &[VSet], k: u32) -> VSet
    ensures { result.bits ≡ get_or (masks_of sets.now) k 0 }
{
    match sets.get(k as usize) {
        Some(set) => *set,
        None => VSet::EMPTY,
    }
}

#[cycle(free_expr)]
fn free_factors(factors: &Vec<Expr>, sets: &[VSet]) -> VSet
    ensures { result.bits ≡ free_in_any (masks_of sets.now) (views factors.now.items) }
{
    let mut free = VSet::EMPTY;
    for factor in factors {
        free = free.union(free_expr(factor, sets));
    }
    free
}

/// The free variables of each definition, in order. The set of each is kept, so each node is visited once.
///
/// A number without an earlier definition, which `check` refuses, has none.
pub fn free_sets(alloc: Global, defs: &[Expr]) -> Result<Vec<VSet>, AllocError>
    ensures { IfOk result (λ sets. masks_of sets.items ≡ free_in_defs [] (map view defs.now)) }
{
    let mut sets = Vec::new(alloc);
    for def in defs {
        let set = free_expr(def, &sets);
        sets.push(set)?;
    }
    Ok(sets)
}

/// The free variables of a formula: those whose values its value may depend on.
///
/// A sum binds its own.
pub fn free(alloc: Global, f: &Formula) -> Result<VSet, AllocError>
    ensures { IfOk result (λ s. s.bits ≡ free_of (formula_view f.now)) }
{
    let sets = free_sets(alloc, &f.defs)?;
    Ok(free_expr(&f.main, &sets))
}
