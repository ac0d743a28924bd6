//! The adjustment formula, by steps.

use crate::held::Held;
use crate::orders::one_before_other;
use crate::parts::term_at;
use do_derivation::{BareMove, Move, SetMove};
use mixed_graph::{Graph, VSet};
use std::alloc::{AllocError, Global};

/// Lets the members of the intervention go that don't matter while another stays.
fn drop_idle(alloc: Global, g: &Graph, held: &mut Held, doing: VSet) -> Result<(), AllocError> {
    let mut left = doing;
    for v in 0..64u8 {
        let alone = VSet::one(v);
        if doing.has(v) && left.bits != alone.bits {
            if held.try_move(alloc, g, &[], Move::WithSet(SetMove::Rule3Out, alone))? {
                left = left.difference(alone);
            }
        }
    }
    Ok(())
}

/// The numbers from one on below another.
fn numbers(alloc: Global, from: u32, to: u32) -> Result<Vec<u32>, AllocError> {
    let mut list = Vec::new(alloc);
    for i in from..to {
        list.push(i)?;
    }
    Ok(list)
}

/// Makes of so many factors at a place a term.
fn one_term(
    alloc: Global,
    g: &Graph,
    held: &mut Held,
    place: &[u32],
    count: u32,
) -> Result<bool, AllocError> {
    if count < 2 {
        return Ok(true);
    }
    held.try_move(alloc, g, place, Move::Bare(BareMove::Unchain))
}

/// Makes of two groups of factors, the first `first` and the `second` behind them, a term each.
fn two_terms(
    alloc: Global,
    g: &Graph,
    held: &mut Held,
    first: u32,
    second: u32,
) -> Result<bool, AllocError> {
    if first < 2 && second < 2 {
        return Ok(true);
    }
    let mut groups = Vec::new(alloc);
    groups.push(numbers(alloc, 0, first)?)?;
    groups.push(numbers(alloc, first, first.saturating_add(second))?)?;
    if !held.try_move(alloc, g, &[0], Move::Group(groups))? {
        return Ok(false);
    }
    if !one_term(alloc, g, held, &[0, 0], first)? {
        return Ok(false);
    }
    one_term(alloc, g, held, &[0, 1], second)
}

/// P(of, z | do(doing)) inside the sum becomes P(z | do(doing)) * P(of | do(doing), z).
fn part(alloc: Global, g: &Graph, held: &mut Held, z: VSet, of: VSet) -> Result<bool, AllocError> {
    let order = one_before_other(z, of);
    if !held.try_move(alloc, g, &[0], Move::Chain(order))? {
        return Ok(false);
    }
    two_terms(alloc, g, held, z.count(), of.count())
}

/// Makes of P(y | do(x)) the sum over z of P(z) * P(y | x, z), or where z is empty P(y) or P(y | x).
pub(crate) fn adjust(
    alloc: Global,
    g: &Graph,
    held: &mut Held,
    z: VSet,
) -> Result<bool, AllocError> {
    let Some(whole) = term_at(held.expr(), &[]) else {
        return Ok(false);
    };
    drop_idle(alloc, g, held, whole.doing)?;
    let Some(term) = term_at(held.expr(), &[]) else {
        return Ok(false);
    };
    if z.is_empty() {
        if held.try_move(alloc, g, &[], Move::WithSet(SetMove::Rule3Out, term.doing))? {
            return Ok(true);
        }
        return held.try_move(alloc, g, &[], Move::WithSet(SetMove::Rule2See, term.doing));
    }
    if !held.try_move(alloc, g, &[], Move::WithSet(SetMove::Widen, z))? {
        return Ok(false);
    }
    if !part(alloc, g, held, z, term.of)? {
        return Ok(false);
    }
    if !held.try_move(
        alloc,
        g,
        &[0, 0],
        Move::WithSet(SetMove::Rule3Out, term.doing),
    )? {
        return Ok(false);
    }
    held.try_move(
        alloc,
        g,
        &[0, 1],
        Move::WithSet(SetMove::Rule2See, term.doing),
    )
}
