//! Moves that make an expression shorter: conditions that can go, and factors that are one term.

use crate::held::Held;
use crate::joins::{Joins, join};
use crate::parts::{Term, part_at, places, term_at};
use do_derivation::{BareMove, Move, SetMove, has_product};
use mixed_graph::{Graph, VSet};
use prob_expr::Expr;
use std::alloc::{AllocError, Global};

/// The ways to make an expression shorter.
#[derive(Clone, Copy)]
enum Way {
    /// A term without the conditions that can go.
    Trim,
    /// A product whose factors that are products are opened.
    Unwrap,
    /// A sum of a term as a term.
    Narrow,
    /// Two factors as one term, where one is given by the other.
    Join,
    /// Two factors as one term, where neither is.
    JoinApart,
}

/// What was tried before.
#[derive(Drop)]
struct Seen {
    joins: Joins,
    trimmed: Vec<Term>,
}

impl Seen {
    fn has_trimmed(&self, term: Term) -> bool {
        for other in &self.trimmed {
            if term.is_same(*other) {
                return true;
            }
        }
        false
    }
}

/// Lets each condition of a term go that rule 1 lets.
fn trim(
    alloc: Global,
    g: &Graph,
    held: &mut Held,
    place: &[u32],
    seen: &mut Seen,
) -> Result<bool, AllocError> {
    let Some(term) = term_at(held.expr(), place) else {
        return Ok(false);
    };
    if term.given.is_empty() {
        return Ok(false);
    }
    if seen.has_trimmed(term) {
        return Ok(false);
    }
    let mut left = term.given;
    for v in 0..64u8 {
        if term.given.has(v) {
            let alone = VSet::one(v);
            if held.try_move(alloc, g, place, Move::WithSet(SetMove::Rule1Out, alone))? {
                left = left.difference(alone);
            }
        }
    }
    seen.trimmed.push(Term {
        of: term.of,
        doing: term.doing,
        given: left,
    })?;
    Ok(left.bits != term.given.bits)
}

/// Whether a product with a factor that is one stands at a place.
fn is_wrapped(e: &Expr, place: &[u32]) -> bool {
    match part_at(e, place) {
        Some(Expr::Product(factors)) => has_product(factors),
        _ => false,
    }
}

/// Whether a sum of a term stands at a place.
fn is_sum_of_term(e: &Expr, place: &[u32]) -> bool {
    match part_at(e, place) {
        Some(Expr::Sum { over: _, body }) => is_term(body),
        _ => false,
    }
}

fn is_term(e: &Expr) -> bool {
    matches!(e, Expr::Prob { .. })
}

/// Tries a move at a place.
fn try_move(
    alloc: Global,
    g: &Graph,
    held: &mut Held,
    way: Way,
    place: &[u32],
    seen: &mut Seen,
) -> Result<bool, AllocError> {
    match way {
        Way::Trim => trim(alloc, g, held, place, seen),
        Way::Unwrap => {
            if !is_wrapped(held.expr(), place) {
                return Ok(false);
            }
            held.try_move(alloc, g, place, Move::Bare(BareMove::Unwrap))
        }
        Way::Narrow => {
            if !is_sum_of_term(held.expr(), place) {
                return Ok(false);
            }
            held.try_move(alloc, g, place, Move::Bare(BareMove::Narrow))
        }
        Way::Join => join(alloc, g, held, place, false, &mut seen.joins),
        Way::JoinApart => join(alloc, g, held, place, true, &mut seen.joins),
    }
}

/// Tries a move at all places, a part before its own, up to the first where it's done.
fn move_somewhere(
    alloc: Global,
    g: &Graph,
    held: &mut Held,
    way: Way,
    seen: &mut Seen,
) -> Result<bool, AllocError> {
    let all = places(alloc, held.expr())?;
    for place in &all {
        if try_move(alloc, g, held, way, place.as_slice(), seen)? {
            return Ok(true);
        }
    }
    Ok(false)
}

/// Does a move as often as it can be done.
fn repeat(
    alloc: Global,
    g: &Graph,
    held: &mut Held,
    way: Way,
    seen: &mut Seen,
) -> Result<bool, AllocError> {
    let mut some = false;
    for _ in 0..300u32 {
        if !move_somewhere(alloc, g, held, way, seen)? {
            break;
        }
        some = true;
    }
    Ok(some)
}

/// Does each kind of moves in turn.
fn move_in_turn(
    alloc: Global,
    g: &Graph,
    held: &mut Held,
    seen: &mut Seen,
) -> Result<bool, AllocError> {
    let mut some = false;
    for way in [
        Way::Trim,
        Way::Unwrap,
        Way::Narrow,
        Way::Join,
        Way::JoinApart,
    ] {
        if repeat(alloc, g, held, way, seen)? {
            some = true;
        }
    }
    Ok(some)
}

/// Makes an expression shorter by moves, while one can be done and fewer than 300 steps were tried.
pub(crate) fn improve(alloc: Global, g: &Graph, held: &mut Held) -> Result<(), AllocError> {
    held.allow(300);
    let mut seen = Seen {
        joins: Joins::none(alloc),
        trimmed: Vec::new(alloc),
    };
    for _ in 0..300u32 {
        if !move_in_turn(alloc, g, held, &mut seen)? {
            break;
        }
    }
    Ok(())
}
