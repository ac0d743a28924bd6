//! The parts of an expression, by their places.

ghost use Rattle.std.specs.Prelude.{◌≡◌, Some, IfSome, option_map};
ghost use Rattle.prob_expr.specs.Tree.{prob};
ghost use Rattle.prob_expr.specs.View.{view};
ghost use Rattle.do_derivation.specs.Vocabulary.{child};
ghost use Rattle.held_steps.specs.Holding.{part_of};

use mixed_graph::VSet;
use prob_expr::{Expr, cap};
use std::alloc::{AllocError, Global};

/// The sets of a term.
#[derive(Clone, Copy)]
pub struct Term {
    pub of: VSet,
    pub doing: VSet,
    pub given: VSet,
}

impl Term {
    /// Whether the sets are the same.
    pub(crate) fn is_same(self, other: Term) -> bool {
        self.of.bits == other.of.bits
            && self.doing.bits == other.doing.bits
            && self.given.bits == other.given.bits
    }
}

/// The child of that number.
fn child_at(e: &Expr, i: u32) -> Option<&Expr>
    ensures { option_map (λ c. view c.now) result ≡ child (view e.now) i }
{
    match e {
        Expr::Prob {
            of: _,
            doing: _,
            given: _,
        } => None,
        Expr::Sum { over: _, body } => match i {
            0 => Some(body),
            _ => None,
        },
        Expr::Product(factors) => factors.get(i as usize),
        Expr::Quotient { top, bottom } => match i {
            0 => Some(top),
            1 => Some(bottom),
            _ => None,
        },
        Expr::Named(_) => None,
    }
}

/// The part at a place: the numbers of children on the way to it.
#[tactic(auto, using(crate::proofs::Places::part_none, crate::proofs::Places::part_turn, crate::proofs::Places::part_whole))]
pub(crate) fn part_at<'a>(e: &'a Expr, place: &[u32]) -> Option<&'a Expr>
    ensures { option_map (λ part. view part.now) result ≡ part_of (view e.now) place.now }
{
    let mut part = e;
    for i in place {
        match child_at(part, *i) {
            Some(next) => part = next,
            None => return None,
        }
    }
    Some(part)
}

/// The term at a place.
pub fn term_at(e: &Expr, place: &[u32]) -> Option<Term>
    ensures { IfSome result (λ t. part_of (view e.now) place.now ≡ Some (prob t.of.bits t.doing.bits t.given.bits)) }
{
    match part_at(e, place) {
        Some(Expr::Prob { of, doing, given }) => Some(Term {
            of: *of,
            doing: *doing,
            given: *given,
        }),
        _ => None,
    }
}

/// Adds the places of a part and of those in it, a part before its own.
#[cycle(places)]
fn push_places(
    alloc: Global,
    e: &Expr,
    place: &[u32],
    out: &mut Vec<Vec<u32>>,
) -> Result<(), AllocError> {
    out.push(Vec::from_slice(alloc, place)?)?;
    match e {
        Expr::Prob { .. } => Ok(()),
        Expr::Sum { over: _, body } => push_below(alloc, body, place, 0, out),
        Expr::Product(factors) => push_places_of_each(alloc, factors, place, out),
        Expr::Quotient { top, bottom } => {
            push_below(alloc, top, place, 0, out)?;
            push_below(alloc, bottom, place, 1, out)
        }
        Expr::Named(_) => Ok(()),
    }
}

/// Those of the child of that number.
#[cycle(places)]
fn push_below(
    alloc: Global,
    e: &Expr,
    place: &[u32],
    i: u32,
    out: &mut Vec<Vec<u32>>,
) -> Result<(), AllocError> {
    let mut below = Vec::from_slice(alloc, place)?;
    below.push(i)?;
    push_places(alloc, e, below.as_slice(), out)
}

/// Those of each factor.
#[cycle(places)]
fn push_places_of_each(
    alloc: Global,
    factors: &Vec<Expr>,
    place: &[u32],
    out: &mut Vec<Vec<u32>>,
) -> Result<(), AllocError> {
    for (i, factor) in factors.iter().enumerate() {
        push_below(alloc, factor, place, cap(i), out)?;
    }
    Ok(())
}

/// All places of an expression, a part before its own.
pub(crate) fn places(alloc: Global, e: &Expr) -> Result<Vec<Vec<u32>>, AllocError> {
    let mut all = Vec::new(alloc);
    push_places(alloc, e, &[], &mut all)?;
    Ok(all)
}
