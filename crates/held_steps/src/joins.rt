//! Two factors of a product made one term.

use crate::held::Held;
use crate::parts::{Term, part_at, term_at};
use do_derivation::{BareMove, Move, SetMove};
use mixed_graph::{Graph, VSet};
use prob_expr::{Expr, cap};
use std::alloc::{AllocError, Global};

/// The pairs of terms that didn't join.
#[derive(Drop)]
pub struct Joins {
    refused: Vec<(Term, Term)>,
}

impl Joins {
    /// No pair yet.
    pub(crate) fn none(alloc: Global) -> Joins {
        Joins {
            refused: Vec::new(alloc),
        }
    }

    fn are_refused(&self, a: Term, b: Term) -> bool {
        for pair in &self.refused {
            if a.is_same(pair.0) && b.is_same(pair.1) {
                return true;
            }
        }
        false
    }
}

/// Whether P(A | C) and P(B | D) may be tried: A and B don't meet, nor B and C, and D meets A, or doesn't where `apart`.
fn may_join(a: Term, b: Term, apart: bool) -> bool {
    a.doing.bits == b.doing.bits
        && a.of.is_apart(b.of)
        && b.of.is_apart(a.given)
        && a.of.is_apart(b.given) == apart
}

/// How many factors a product at a place has; none where there is no product.
fn count_factors(e: &Expr, place: &[u32]) -> u32 {
    match part_at(e, place) {
        Some(Expr::Product(factors)) => cap(factors.len()),
        _ => 0,
    }
}

/// The place of a child.
fn below(alloc: Global, place: &[u32], i: u32) -> Result<Vec<u32>, AllocError> {
    let mut below = Vec::from_slice(alloc, place)?;
    below.push(i)?;
    Ok(below)
}

/// Puts conditions into the term at a place, where there are any.
fn put_in(
    alloc: Global,
    g: &Graph,
    held: &mut Held,
    place: &[u32],
    z: VSet,
) -> Result<bool, AllocError> {
    if z.is_empty() {
        return Ok(true);
    }
    held.try_move(alloc, g, place, Move::WithSet(SetMove::Rule1In, z))
}

/// A list of one number, or of two.
fn numbers(alloc: Global, i: u32, j: Option<u32>) -> Result<Vec<u32>, AllocError> {
    let mut list = Vec::new(alloc);
    list.push(i)?;
    if let Some(j) = j {
        list.push(j)?;
    }
    Ok(list)
}

/// Factors i and j as one group, at the place of the lower, and each of the others alone.
fn grouping(alloc: Global, count: u32, i: u32, j: u32) -> Result<Vec<Vec<u32>>, AllocError> {
    let low = i.min(j);
    let mut groups = Vec::new(alloc);
    for k in 0..count {
        if k == low {
            groups.push(numbers(alloc, i, Some(j))?)?;
        } else if k != i && k != j {
            groups.push(numbers(alloc, k, None)?)?;
        }
    }
    Ok(groups)
}

/// Factors i and j of two, j behind i, as one term.
fn join_two(
    alloc: Global,
    g: &Graph,
    held: &mut Held,
    place: &[u32],
    swapped: bool,
) -> Result<bool, AllocError> {
    if swapped {
        let mut groups = Vec::new(alloc);
        groups.push(numbers(alloc, 1, None)?)?;
        groups.push(numbers(alloc, 0, None)?)?;
        if !held.try_move(alloc, g, place, Move::Group(groups))? {
            return Ok(false);
        }
    }
    held.try_move(alloc, g, place, Move::Bare(BareMove::Unchain))
}

/// Factors i and j, which are a chain, as one term.
fn join_chain(
    alloc: Global,
    g: &Graph,
    held: &mut Held,
    place: &[u32],
    i: u32,
    j: u32,
) -> Result<bool, AllocError> {
    let count = count_factors(held.expr(), place);
    if count == 2 {
        return join_two(alloc, g, held, place, j < i);
    }
    let groups = grouping(alloc, count, i, j)?;
    if !held.try_move(alloc, g, place, Move::Group(groups))? {
        return Ok(false);
    }
    let low = below(alloc, place, i.min(j))?;
    held.try_move(alloc, g, low.as_slice(), Move::Bare(BareMove::Unchain))
}

/// The steps that make P(A | C) and P(B | D) the term P(A, B | C + (D - A)).
fn join_steps(
    alloc: Global,
    g: &Graph,
    held: &mut Held,
    place: &[u32],
    i: u32,
    j: u32,
) -> Result<bool, AllocError> {
    let first = below(alloc, place, i)?;
    let second = below(alloc, place, j)?;
    let Some(a) = term_at(held.expr(), first.as_slice()) else {
        return Ok(false);
    };
    let Some(b) = term_at(held.expr(), second.as_slice()) else {
        return Ok(false);
    };
    let given = a.given.union(b.given.difference(a.of));
    let to_a = given.difference(a.given);
    let to_b = a.of.union(given).difference(b.given);
    if !put_in(alloc, g, held, first.as_slice(), to_a)? {
        return Ok(false);
    }
    if !put_in(alloc, g, held, second.as_slice(), to_b)? {
        return Ok(false);
    }
    join_chain(alloc, g, held, place, i, j)
}

/// Makes factors i and j one term, where that can be done; else nothing changes.
fn join_pair(
    alloc: Global,
    g: &Graph,
    held: &mut Held,
    place: &[u32],
    i: u32,
    j: u32,
) -> Result<bool, AllocError> {
    let mark = held.mark(alloc)?;
    if join_steps(alloc, g, held, place, i, j)? {
        return Ok(true);
    }
    held.back(mark);
    Ok(false)
}

/// The terms of factors i and j that may be tried and weren't refused before.
fn untried(
    alloc: Global,
    held: &Held,
    place: &[u32],
    i: u32,
    j: u32,
    apart: bool,
    joins: &Joins,
) -> Result<Option<(Term, Term)>, AllocError> {
    if i == j {
        return Ok(None);
    }
    let first = below(alloc, place, i)?;
    let second = below(alloc, place, j)?;
    let Some(a) = term_at(held.expr(), first.as_slice()) else {
        return Ok(None);
    };
    let Some(b) = term_at(held.expr(), second.as_slice()) else {
        return Ok(None);
    };
    if !may_join(a, b, apart) {
        return Ok(None);
    }
    if joins.are_refused(a, b) {
        return Ok(None);
    }
    Ok(Some((a, b)))
}

/// Makes factor i of a product at a place one term with another, the first with which it can be.
fn join_with_any(
    alloc: Global,
    g: &Graph,
    held: &mut Held,
    place: &[u32],
    i: u32,
    apart: bool,
    joins: &mut Joins,
) -> Result<bool, AllocError> {
    let count = count_factors(held.expr(), place);
    for j in 0..count {
        if let Some(pair) = untried(alloc, held, place, i, j, apart, joins)? {
            if join_pair(alloc, g, held, place, i, j)? {
                return Ok(true);
            }
            joins.refused.push(pair)?;
        }
    }
    Ok(false)
}

/// Makes two factors of a product at a place one term, the first that can be: where `apart` such as are
/// independent, else such as one is given by the other.
pub(crate) fn join(
    alloc: Global,
    g: &Graph,
    held: &mut Held,
    place: &[u32],
    apart: bool,
    joins: &mut Joins,
) -> Result<bool, AllocError> {
    let count = count_factors(held.expr(), place);
    for i in 0..count {
        if join_with_any(alloc, g, held, place, i, apart, joins)? {
            return Ok(true);
        }
    }
    Ok(false)
}
