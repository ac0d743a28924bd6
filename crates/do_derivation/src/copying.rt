//! Copies of moves and steps.

ghost use Rattle.std.specs.Prelude.{◌≡◌, IfOk};
ghost use Rattle.do_derivation.specs.View.{move_view, step_view, steps_view, numbers_of};

use crate::moves::Move;
use crate::steps::Step;
use std::alloc::{AllocError, Global};

// A copy of groups of numbers.
fn copy_groups(alloc: Global, groups: &Vec<Vec<u32>>) -> Result<Vec<Vec<u32>>, AllocError>
    ensures { IfOk result (λ v. numbers_of v.items ≡ numbers_of groups.now.items) }
{
    let mut copies = Vec::new(alloc);
    for group in groups {
        let copy = Vec::from_slice(alloc, group.as_slice())?;
        copies.push(copy)?;
    }
    Ok(copies)
}

/// An equal move.
pub fn copy_move(alloc: Global, done: &Move) -> Result<Move, AllocError>
    ensures { IfOk result (λ m. move_view m ≡ move_view done.now) }
{
    match done {
        Move::WithSet(kind, set) => Ok(Move::WithSet(*kind, *set)),
        Move::Bare(kind) => Ok(Move::Bare(*kind)),
        Move::Chain(order) => Ok(Move::Chain(*order)),
        Move::Group(groups) => Ok(Move::Group(copy_groups(alloc, groups)?)),
        Move::Cite(k) => Ok(Move::Cite(*k)),
    }
}

/// An equal step.
#[cycle(copy)]
pub fn copy_step(alloc: Global, step: &Step) -> Result<Step, AllocError>
    ensures { IfOk result (λ s. step_view s ≡ step_view step.now) }
{
    match step {
        Step::Make(done) => Ok(Step::Make(copy_move(alloc, done)?)),
        Step::At(i, inner) => Ok(Step::At(*i, Box::new(alloc, copy_step(alloc, inner)?)?)),
        Step::Then(steps) => Ok(Step::Then(copy_steps(alloc, steps)?)),
    }
}

#[cycle(copy)]
fn copy_steps(alloc: Global, steps: &Vec<Step>) -> Result<Vec<Step>, AllocError>
    ensures { IfOk result (λ v. steps_view v.items ≡ steps_view steps.now.items) }
{
    let mut copies = Vec::with_capacity(alloc, steps.len())?;
    for step in steps {
        copies.push(copy_step(alloc, step)?)?;
    }
    Ok(copies)
}
