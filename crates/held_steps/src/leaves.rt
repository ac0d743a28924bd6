//! A derivation as a list of moves on parts, each at its place.

use do_derivation::{Move, Step, copy_move};
use mixed_graph::VSet;
use std::alloc::{AllocError, Global};

/// A move, and the place of the part on which it is made.
#[derive(Drop)]
pub struct Placed {
    pub place: Vec<u32>,
    pub done: Move,
}

/// What stands in place of the citation of a lemma.
#[derive(Drop)]
pub enum Cited {
    /// The citation of that number.
    Number(u32),
    /// The moves of the lemma.
    Moves(Vec<Placed>),
}

/// A copy of a move with the kept vertices alone in its set; none where its set is empty then.
fn copy_kept(alloc: Global, done: &Move, kept: VSet) -> Result<Option<Move>, AllocError> {
    match done {
        Move::WithSet(kind, z) => {
            let left = z.intersection(kept);
            if left.is_empty() {
                return Ok(None);
            }
            Ok(Some(Move::WithSet(*kind, left)))
        }
        other => Ok(Some(copy_move(alloc, other)?)),
    }
}

/// Adds a move at a place.
fn push_placed(
    alloc: Global,
    out: &mut Vec<Placed>,
    place: &[u32],
    done: Option<Move>,
) -> Result<(), AllocError> {
    if let Some(done) = done {
        let place = Vec::from_slice(alloc, place)?;
        out.push(Placed { place, done })?;
    }
    Ok(())
}

/// Adds the moves of a lemma, where it is cited at a place.
fn push_lemma(
    alloc: Global,
    out: &mut Vec<Placed>,
    place: &[u32],
    lemma: &Vec<Placed>,
) -> Result<(), AllocError> {
    for placed in lemma {
        let mut below = Vec::from_slice(alloc, place)?;
        below.extend_from_slice(placed.place.as_slice())?;
        let done = copy_move(alloc, &placed.done)?;
        push_placed(alloc, out, below.as_slice(), Some(done))?;
    }
    Ok(())
}

/// Adds a citation at a place, or what stands in its place.
fn push_cited(
    alloc: Global,
    out: &mut Vec<Placed>,
    place: &[u32],
    cited: &Vec<Cited>,
    k: u32,
) -> Result<(), AllocError> {
    match cited.get(k as usize) {
        Some(Cited::Number(number)) => { push_placed(alloc, out, place, Some(Move::Cite(*number))) }
        Some(Cited::Moves(lemma)) => push_lemma(alloc, out, place, lemma),
        None => Ok(()),
    }
}

/// Adds the moves on parts of which a step is made, with the kept vertices alone in their sets.
#[cycle(leaves)]
pub(crate) fn push_leaves(
    alloc: Global,
    step: &Step,
    place: &[u32],
    cited: &Vec<Cited>,
    kept: VSet,
    out: &mut Vec<Placed>,
) -> Result<(), AllocError> {
    match step {
        Step::At(i, inner) => {
            let mut below = Vec::from_slice(alloc, place)?;
            below.push(*i)?;
            push_leaves(alloc, inner, below.as_slice(), cited, kept, out)
        }
        Step::Then(steps) => push_leaves_of_each(alloc, steps, place, cited, kept, out),
        Step::Make(Move::Cite(k)) => push_cited(alloc, out, place, cited, *k),
        Step::Make(done) => {
            let copy = copy_kept(alloc, done, kept)?;
            push_placed(alloc, out, place, copy)
        }
    }
}

/// Adds those of each step.
#[cycle(leaves)]
fn push_leaves_of_each(
    alloc: Global,
    steps: &Vec<Step>,
    place: &[u32],
    cited: &Vec<Cited>,
    kept: VSet,
    out: &mut Vec<Placed>,
) -> Result<(), AllocError> {
    for step in steps {
        push_leaves(alloc, step, place, cited, kept, out)?;
    }
    Ok(())
}
