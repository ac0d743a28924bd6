//! The joint of y and a set as a chain, each of whose factors is freed by itself (Pearl and Robins 1995).

use crate::held::Held;
use crate::orders::members_in_order;
use crate::parts::{Term, term_at};
use do_derivation::{Move, SetMove};
use mixed_graph::{Graph, VSet};
use std::alloc::{AllocError, Global};

/// A rule by which a member leaves an intervention.
#[derive(Clone, Copy)]
enum Leaving {
    /// Rule 3: it goes.
    Out,
    /// Rule 2: it is observed.
    Seen,
}

impl Leaving {
    fn of(self, z: VSet) -> Move {
        match self {
            Leaving::Out => Move::WithSet(SetMove::Rule3Out, z),
            Leaving::Seen => Move::WithSet(SetMove::Rule2See, z),
        }
    }
}

/// Tries each member of the intervention of the term at a place: whether one left.
fn free_each(
    alloc: Global,
    g: &Graph,
    held: &mut Held,
    place: &[u32],
    leaving: Leaving,
) -> Result<bool, AllocError> {
    let Some(term) = term_at(held.expr(), place) else {
        return Ok(false);
    };
    let mut some = false;
    for v in 0..64u8 {
        if term.doing.has(v) {
            if held.try_move(alloc, g, place, leaving.of(VSet::one(v)))? {
                some = true;
            }
        }
    }
    Ok(some)
}

/// Tries both rules on each member: whether one left.
fn free_some(alloc: Global, g: &Graph, held: &mut Held, place: &[u32]) -> Result<bool, AllocError> {
    let out = free_each(alloc, g, held, place, Leaving::Out)?;
    let seen = free_each(alloc, g, held, place, Leaving::Seen)?;
    Ok(out || seen)
}

/// Tries the rules on the term at a place while a member leaves: whether none is left.
pub(crate) fn free(
    alloc: Global,
    g: &Graph,
    held: &mut Held,
    place: &[u32],
) -> Result<bool, AllocError> {
    for _ in 0..64u32 {
        if !free_some(alloc, g, held, place)? {
            break;
        }
    }
    match term_at(held.expr(), place) {
        Some(term) => Ok(term.doing.is_empty()),
        None => Ok(false),
    }
}

/// Turns observations of the whole term into interventions by rule 2, the lowest first, while one can be.
pub(crate) fn turn(alloc: Global, g: &Graph, held: &mut Held) -> Result<bool, AllocError> {
    let mut some = false;
    for _ in 0..64u32 {
        if !turn_one(alloc, g, held)? {
            break;
        }
        some = true;
    }
    Ok(some)
}

/// Turns the lowest observation that can be.
fn turn_one(alloc: Global, g: &Graph, held: &mut Held) -> Result<bool, AllocError> {
    let Some(term) = term_at(held.expr(), &[]) else {
        return Ok(false);
    };
    for v in 0..64u8 {
        if term.given.has(v) {
            if held.try_move(alloc, g, &[], Move::WithSet(SetMove::Rule2Do, VSet::one(v)))? {
                return Ok(true);
            }
        }
    }
    Ok(false)
}

/// The factors of a chain at a place, each freed: whether all are.
fn free_chain(
    alloc: Global,
    g: &Graph,
    held: &mut Held,
    place: &[u32],
    of: VSet,
) -> Result<bool, AllocError> {
    let order = members_in_order(g, of);
    if order.count < 2 {
        return free(alloc, g, held, place);
    }
    if !held.try_move(alloc, g, place, Move::Chain(order))? {
        return Ok(false);
    }
    let mut factor = Vec::from_slice(alloc, place)?;
    for i in 0..order.count {
        factor.push(i)?;
        if !free(alloc, g, held, factor.as_slice())? {
            return Ok(false);
        }
        factor.truncate(place.len());
    }
    Ok(true)
}

/// Makes of P(y | do(x), given) the sum over z of a chain without interventions.
pub(crate) fn plan(alloc: Global, g: &Graph, held: &mut Held, z: VSet) -> Result<bool, AllocError> {
    let Some(Term { of, doing, given }) = term_at(held.expr(), &[]) else {
        return Ok(false);
    };
    if doing.is_empty() {
        return Ok(true);
    }
    let more = z.difference(given).difference(doing);
    if more.is_empty() {
        return free_chain(alloc, g, held, &[], of);
    }
    if !held.try_move(alloc, g, &[], Move::WithSet(SetMove::Widen, more))? {
        return Ok(false);
    }
    free_chain(alloc, g, held, &[0], of.union(more))
}
