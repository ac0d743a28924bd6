//! The members of the object.

ghost use Rattle.std.specs.Prelude.{◌≡◌, OnOk};
ghost use Rattle.prob_expr.specs.Vocabulary.{target_view};
ghost use Rattle.answer_json.specs.Vocabulary.{with_members};
ghost use Rattle.primed_names.specs.Vocabulary.{primed_names};
ghost use Rattle.evaluate_natural.specs.Objects.{answer_members, head_members, levels_members, target_of};

use crate::answer::Answer;
use answer_json::Object;
use evaluate_command::push_levels;
use mixed_graph::Names;
use natural_command::{Asked, push_asked};
use paired_values::{are_exact, push_axes, push_cells_of, push_pinned};
use prob_expr::Target;
use std::alloc::AllocError;

/// The sets x, y and what is given.
fn target_of(asked: Asked) -> Target
    ensures { target_view result ≡ target_of asked }
{
    let question = asked.question;
    Target {
        x: question.x,
        y: question.y,
        given: question.given,
    }
}

/// The members of the levels of y, of x and of what is given in a cell, and of the second levels of x.
pub fn push_all_levels(
    object: &mut Object,
    names: &Names,
    all: &Names,
    answer: &Answer,
    cell: &[u32],
) -> Result<(), AllocError>
    ensures { all.now ≡ primed_names names.now answer.now.asked.question.x.bits
        → OnOk result (object.new ≡ with_members (levels_members names.now answer.now cell.now) object.old) }
{
    let counts = &answer.counts;
    push_levels(object, names, &target_of(answer.asked), counts, cell)?;
    push_axes(
        object,
        "second",
        all,
        counts,
        cell,
        answer.second.as_slice(),
    )?;
    Ok(())
}

/// What stands before the cells: what is asked for, whether the values are exact, and what is pinned.
fn push_head(object: &mut Object, names: &Names, answer: &Answer) -> Result<(), AllocError>
    ensures { OnOk result (object.new ≡ with_members (head_members names.now answer.now) object.old) }
{
    push_asked(object, "values", names, answer.asked)?;
    object.key("exact")?;
    object.boolean(are_exact(&answer.values))?;
    push_pinned(object, names, &answer.counts, answer.pinned)?;
    Ok(())
}

/// All members.
pub fn push_answer(object: &mut Object, names: &Names, answer: &Answer) -> Result<(), AllocError>
    ensures { OnOk result (object.new ≡ with_members (answer_members names.now answer.now) object.old) }
{
    push_head(object, names, answer)?;
    push_cells_of(object, names, answer, &answer.values)?;
    Ok(())
}
