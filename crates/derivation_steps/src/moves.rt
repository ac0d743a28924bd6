// The moves of a step.
ghost use Rattle.std.specs.Prelude.{◌≡◌, ◌++◌, [], ◌∷◌, List, ℕ, map, IfOk, OnOk};
ghost use Rattle.do_derivation.specs.Plans.{Plan};
ghost use Rattle.do_derivation.specs.Vocabulary.{step_view, steps_view};
ghost use Rattle.derivation_steps.specs.Moves.{moves_of, moves_of_each};

use do_derivation::{Step, copy_move};
use std::alloc::{AllocError, Global};

// One step alone.
fn alone(alloc: Global, step: Step) -> Result<Vec<Step>, AllocError>
    ensures { IfOk result (λ v. map step_view v.items ≡ step_view step ∷ []) }
{
    let mut steps = Vec::new(alloc);
    steps.push(step)?;
    Ok(steps)
}

// Each step, on the child of that number.
fn on_child(alloc: Global, i: u32, steps: Vec<Step>) -> Result<Vec<Step>, AllocError>
    ensures { IfOk result (λ v. map step_view v.items ≡ map (Plan.At i) (map step_view steps.items)) }
{
    let mut placed = Vec::new(alloc);
    for step in steps {
        let inner = Box::new(alloc, step)?;
        placed.push(Step::At(i, inner))?;
    }
    Ok(placed)
}

/// The moves of a step in turn, each at its place.
#[cycle(moves)]
pub fn moves_of(alloc: Global, step: &Step) -> Result<Vec<Step>, AllocError>
    ensures { IfOk result (λ v. map step_view v.items ≡ moves_of (step_view step.now)) }
{
    match step {
        Step::Make(done) => match copy_move(alloc, done) {
            Ok(copy) => alone(alloc, Step::Make(copy)),
            Err(refusal) => Err(refusal),
        },
        Step::At(i, inner) => match moves_of(alloc, inner) {
            Ok(moves) => on_child(alloc, *i, moves),
            Err(refusal) => Err(refusal),
        },
        Step::Then(steps) => moves_of_all(alloc, steps),
    }
}

// Those of several steps in turn.
#[cycle(moves)]
fn moves_of_all(alloc: Global, steps: &[Step]) -> Result<Vec<Step>, AllocError>
    ensures { IfOk result (λ v. map step_view v.items ≡ moves_of_each (steps_view steps.now)) }
{
    let mut all = Vec::new(alloc);
    for i in 0..steps.len() {
        match moves_of(alloc, &steps[i]) {
            Ok(moves) => append(&mut all, moves)?,
            Err(refusal) => return Err(refusal),
        }
    }
    Ok(all)
}

// Puts steps behind others.
fn append(all: &mut Vec<Step>, more: Vec<Step>) -> Result<(), AllocError>
    ensures { OnOk result (map step_view all.new.items ≡ map step_view all.old.items ++ map step_view more.items) }
{
    let mut more = more;
    all.append(&mut more)
}
