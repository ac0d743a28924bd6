//! The formula of the joint effect, divided by its sum over y, with its derivation.

ghost use Rattle.std.specs.Prelude.{◌≡◌, IfOk, OnOk};
ghost use Rattle.prob_expr.specs.Vocabulary.{formula_view};
ghost use Rattle.do_derivation.specs.Plans.{Plan, Plans, plan};
ghost use Rattle.do_derivation.specs.Vocabulary.{step_view, steps_view};
ghost use Rattle.conditional_id.specs.Conditionals.{divided, divided_steps, steps_of, summed_steps};
ghost use Rattle.identify.specs.Vocabulary.{onto};

use do_derivation::{BareMove, Move, SetMove, Step, copy_step};
use mixed_graph::VSet;
use prob_expr::{Expr, Formula, copy_expr};
use std::alloc::{AllocError, Global};

/// The formula of the joint effect, divided by its sum over y where an observation is left.
pub fn divided(alloc: Global, y: VSet, left: VSet, joint: Formula) -> Result<Formula, AllocError>
    ensures { IfOk result (λ f. formula_view f ≡ divided y.bits left.bits (formula_view joint)) }
{
    if left.is_empty() {
        return Ok(joint);
    }
    let body = Box::new(alloc, copy_expr(alloc, &joint.main)?)?;
    let bottom = Box::new(alloc, Expr::Sum { over: y, body })?;
    let top = Box::new(alloc, joint.main)?;
    Ok(Formula {
        defs: joint.defs,
        main: Expr::Quotient { top, bottom },
    })
}

/// Adds the steps of a list, or the step alone.
fn push_steps(out: &mut Vec<Step>, step: Step) -> Result<(), AllocError>
    ensures { OnOk result (steps_view out.new.items ≡ onto out.old.items (steps_of (step_view step))) }
{
    match step {
        Step::Then(list) => {
            let mut list = list;
            out.append(&mut list)?;
        }
        alone => {
            out.push(alone)?;
        }
    }
    Ok(())
}

/// Adds the step on child i.
fn push_at(alloc: Global, out: &mut Vec<Step>, i: u32, step: Step) -> Result<(), AllocError>
    ensures { OnOk result ((rest : Plans) → onto out.new.items rest ≡ onto out.old.items (plan (Plan.At i (step_view step)) rest)) }
{
    let inner = Box::new(alloc, step)?;
    out.push(Step::At(i, inner))?;
    Ok(())
}

/// The step on child 0, behind the step that puts y in under a sum.
fn summed_steps(alloc: Global, y: VSet, step: Step) -> Result<Vec<Step>, AllocError>
    ensures { IfOk result (λ l. steps_view l.items ≡ summed_steps y.bits (step_view step)) }
{
    let mut steps = Vec::new(alloc);
    steps.push(Step::Make(Move::WithSet(SetMove::Widen, y)))?;
    steps.push(Step::At(0, Box::new(alloc, step)?))?;
    Ok(steps)
}

/// The steps from P(y | do(x'), z') to the divided formula behind those of the moves, where `joint` makes the joint formula.
pub fn divided_steps(
    alloc: Global,
    y: VSet,
    left: VSet,
    moves: Vec<Step>,
    joint: Step,
) -> Result<Vec<Step>, AllocError>
    ensures { IfOk result (λ l. steps_view l.items ≡ onto moves.items (divided_steps y.bits left.bits (step_view joint))) }
{
    let mut steps = moves;
    if left.is_empty() {
        push_steps(&mut steps, joint)?;
        return Ok(steps);
    }
    let again = copy_step(alloc, &joint)?;
    let below = summed_steps(alloc, y, again)?;
    steps.push(Step::Make(Move::Bare(BareMove::Split)))?;
    push_at(alloc, &mut steps, 0, joint)?;
    push_at(alloc, &mut steps, 1, Step::Then(below))?;
    Ok(steps)
}
