//! Lists of steps, built from the front.

ghost use Rattle.std.specs.Prelude.{◌≡◌, ℕ, ◌≤◌, ◌++◌, [], ◌∷◌, if◌then◌else◌, IfOk, OnOk, length};
ghost use Rattle.mixed_graph.specs.Vocabulary.{is_empty};
ghost use Rattle.do_derivation.specs.Plans.{Plan, Plans};
ghost use Rattle.do_derivation.specs.Vocabulary.{step_view, steps_view};
ghost use Rattle.identification_theory.specs.Vocabulary.{at_place, at_each};
ghost use Rattle.identify.specs.Lists.{onto, lists_view};

use do_derivation::Step;
use mixed_graph::VSet;
use std::alloc::{AllocError, Global};

/// The steps on the child of that number.
pub fn at(alloc: Global, child: u32, steps: Vec<Step>) -> Result<Step, AllocError>
    ensures { IfOk result (λ s. step_view s ≡ Plan.At child (Plan.Then (steps_view steps.items))) }
{
    Ok(Step::At(child, Box::new(alloc, Step::Then(steps))?))
}

/// Adds the step, left out where its set is empty.
pub fn push_with(out: &mut Vec<Step>, z: VSet, step: Step) -> Result<(), AllocError>
    ensures { OnOk result (out.new.items ≡ out.old.items ++ (if is_empty z.bits then [] else (step ∷ []))) }
{
    if z.is_empty() {
        return Ok(());
    }
    out.push(step)?;
    Ok(())
}

/// Adds the steps at child i, left out where there are none.
pub fn push_at(
    alloc: Global,
    out: &mut Vec<Step>,
    i: u32,
    list: Vec<Step>,
) -> Result<(), AllocError>
    ensures { OnOk result ((rest : Plans) → onto out.new.items rest ≡ onto out.old.items (at_place i (steps_view list.items) rest)) }
{
    if list.is_empty() {
        return Ok(());
    }
    out.push(at(alloc, i, list)?)?;
    Ok(())
}

/// Adds each list at its child, the first at child 0.
pub fn push_each(
    alloc: Global,
    out: &mut Vec<Step>,
    lists: Vec<Vec<Step>>,
) -> Result<(), AllocError>
    requires { length lists.items ≤ 64 }
    ensures { OnOk result ((rest : Plans) → onto out.new.items rest ≡ onto out.old.items (at_each 0 (lists_view lists.items) rest)) }
{
    let mut i = 0u32;
    for list in lists {
        push_at(alloc, out, i, list)?;
        i += 1;
    }
    Ok(())
}
