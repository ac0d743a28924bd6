//! The moves on products.

ghost use Rattle.std.specs.Prelude.{◌≡◌, ◌+◌, ◌≤◌, ℕ, [], true, length, map, eqb, Some, None, IfOk, OnOk, MatchOption, cond};
ghost use Rattle.mixed_graph.specs.Vocabulary.{graph_of};
ghost use Rattle.finite_models.specs.Vocabulary.{all_below};
ghost use Rattle.prob_expr.specs.Tree.{prob, product, tree};
ghost use Rattle.prob_expr.specs.Vocabulary.{no_trees, views};
ghost use Rattle.prob_expr.specs.View.{view};
ghost use Rattle.do_derivation.specs.Plans.{Move};
ghost use Rattle.do_derivation.specs.Shapes.{gathered, unchained, is_grouping, none_empty, each_below, times_in, all_of, picked, groups_of};
ghost use Rattle.do_derivation.specs.Table.{row};
ghost use Rattle.do_derivation.specs.View.{numbers_of};
ghost use Rattle.do_derivation.specs.Applied.{IsRow};
ghost use Rattle.do_derivation.specs.declared.moves.BareMove.TheVariants as bare_move;

use crate::factors::{as_one, flat, has_product};
use crate::faults::{Refusal, StepFault};
use mixed_graph::{Graph, VSet};
use prob_expr::{Expr, copy_expr};
use std::alloc::{AllocError, Global};

// The first set of the one term of P(a | do(b), c) and factors that go on with it as a chain.
fn gathered(a: VSet, b: VSet, c: VSet, factors: &[Expr]) -> Option<VSet>
    ensures { MatchOption result (gathered a.bits b.bits c.bits (views factors.now) ≡ None) (λ u. gathered a.bits b.bits c.bits (views factors.now) ≡ Some u.bits) }
{
    let mut all = a;
    for factor in factors {
        let Expr::Prob { of, doing, given } = factor else {
            return None;
        };
        let known = c.union(all);
        if !of.is_apart(all) || doing.bits != b.bits || given.bits != known.bits {
            return None;
        }
        all = all.union(*of);
    }
    Some(all)
}

// The one term of factors that are a chain.
#[tactic(auto, using(crate::proofs::Lists::few_unchained, crate::proofs::Lists::unchained_many))]
fn unchained(factors: &Vec<Expr>) -> Option<Expr>
    ensures { MatchOption result (unchained (product (views factors.now.items)) ≡ None) (λ e. unchained (product (views factors.now.items)) ≡ Some (view e)) }
{
    if factors.len() < 2 {
        return None;
    }
    let Expr::Prob { of, doing, given } = &factors[0] else {
        return None;
    };
    match gathered(*of, *doing, *given, &factors[1..]) {
        Some(all) => Some(Expr::Prob {
            of: all,
            doing: *doing,
            given: *given,
        }),
        None => None,
    }
}

/// The one term of a chain of terms.
pub fn unchain(g: &Graph, e: Expr) -> Result<Expr, Refusal>
    ensures row { IsRow (graph_of g.now) (row g.now.n [] (Move.Bare bare_move.Unchain) (view e)) result }
{
    let Expr::Product(factors) = e else {
        return Err(Refusal::Fault(StepFault::Shape));
    };
    match unchained(&factors) {
        Some(term) => Ok(term),
        None => Err(Refusal::Fault(StepFault::Shape)),
    }
}

fn none_empty(groups: &Vec<Vec<u32>>) -> bool
    ensures { result ≡ none_empty (numbers_of groups.now.items) }
{
    for group in groups {
        if group.is_empty() {
            return false;
        }
    }
    true
}

fn are_below(m: usize, numbers: &Vec<u32>) -> bool
    ensures { result ≡ each_below m numbers.now.items }
{
    for j in numbers {
        if *j as usize >= m {
            return false;
        }
    }
    true
}

#[tactic(auto, using(crate::proofs::Lists::each_below_append))]
fn each_below(m: usize, groups: &Vec<Vec<u32>>) -> bool
    ensures { result ≡ each_below m (all_of (numbers_of groups.now.items)) }
{
    for group in groups {
        if !are_below(m, group) {
            return false;
        }
    }
    true
}

// Whether i was found or stands in the list, if that is so at most once.
fn found_once(i: usize, found: bool, numbers: &Vec<u32>) -> Option<bool>
    ensures { MatchOption result (2 ≤ cond found 1 0 + times_in i numbers.now.items) (λ now. cond now 1 0 ≡ cond found 1 0 + times_in i numbers.now.items) }
{
    let mut now = found;
    for j in numbers {
        if i == *j as usize {
            if now {
                return None;
            }
            now = true;
        }
    }
    Some(now)
}

// Whether i stands in the groups once.
#[tactic(auto, using(crate::proofs::Lists::times_in_append))]
fn is_once(i: usize, groups: &Vec<Vec<u32>>) -> bool
    ensures { result ≡ eqb (times_in i (all_of (numbers_of groups.now.items))) 1 }
{
    let mut found = false;
    for group in groups {
        match found_once(i, found, group) {
            Some(now) => {
                found = now;
            }
            None => return false,
        }
    }
    found
}

#[tactic(auto, using(crate::proofs::Lists::all_below_fails))]
fn each_once(m: usize, groups: &Vec<Vec<u32>>) -> bool
    ensures { result ≡ all_below m (λ i. eqb (times_in i (all_of (numbers_of groups.now.items))) 1) }
{
    for i in 0..m {
        if !is_once(i, groups) {
            return false;
        }
    }
    true
}

// Whether the groups are two or more, none is empty, and they hold each number below m once and no other.
fn is_grouping(m: usize, groups: &Vec<Vec<u32>>) -> bool
    ensures { result ≡ is_grouping m (numbers_of groups.now.items) }
{
    groups.len() >= 2 && none_empty(groups) && each_below(m, groups) && each_once(m, groups)
}

// The factors with these numbers.
#[tactic(auto, using(crate::proofs::Lists::joined_more, crate::proofs::Lists::joined_nothing, crate::proofs::Lists::picked_some))]
fn picked(alloc: Global, factors: &Vec<Expr>, numbers: &Vec<u32>) -> Result<Vec<Expr>, AllocError>
    requires within { each_below (length factors.now.items) numbers.now.items ≡ true }
    ensures { IfOk result (λ made. views made.items ≡ picked (views factors.now.items) numbers.now.items) }
{
    let mut made = Vec::with_capacity(alloc, numbers.len())?;
    for i in numbers {
        made.push(copy_expr(alloc, &factors[*i as usize])?)?;
    }
    Ok(made)
}

// Each group of factors as one.
#[tactic(auto, using(crate::proofs::Lists::joined_more, crate::proofs::Lists::joined_nothing, crate::proofs::Lists::each_below_append))]
fn groups_of(
    alloc: Global,
    factors: &Vec<Expr>,
    groups: &Vec<Vec<u32>>,
) -> Result<Vec<Expr>, AllocError>
    requires within { each_below (length factors.now.items) (all_of (numbers_of groups.now.items)) ≡ true }
    ensures { IfOk result (λ made. views made.items ≡ groups_of (views factors.now.items) (numbers_of groups.now.items)) }
{
    let mut made = Vec::with_capacity(alloc, groups.len())?;
    for group in groups {
        made.push(as_one(picked(alloc, factors, group)?))?;
    }
    Ok(made)
}

/// The factors of a product in groups.
#[tactic(auto, using(crate::proofs::Lists::count_views))]
pub fn group(alloc: Global, g: &Graph, groups: &Vec<Vec<u32>>, e: Expr) -> Result<Expr, Refusal>
    ensures row { IsRow (graph_of g.now) (row g.now.n [] (Move.Group (numbers_of groups.now.items)) (view e)) result }
{
    let Expr::Product(factors) = e else {
        return Err(Refusal::Fault(StepFault::Grouping));
    };
    if !is_grouping(factors.len(), groups) {
        return Err(Refusal::Fault(StepFault::Grouping));
    }
    match groups_of(alloc, &factors, groups) {
        Ok(made) => Ok(Expr::Product(made)),
        Err(_) => Err(Refusal::NoMemory),
    }
}

/// A product whose factors that are products are opened.
pub fn unwrap(alloc: Global, g: &Graph, e: Expr) -> Result<Expr, Refusal>
    ensures row { IsRow (graph_of g.now) (row g.now.n [] (Move.Bare bare_move.Unwrap) (view e)) result }
{
    let Expr::Product(factors) = e else {
        return Err(Refusal::Fault(StepFault::Shape));
    };
    if !has_product(&factors) {
        return Err(Refusal::Fault(StepFault::Shape));
    }
    match flat(alloc, factors) {
        Ok(made) => Ok(Expr::Product(made)),
        Err(_) => Err(Refusal::NoMemory),
    }
}
