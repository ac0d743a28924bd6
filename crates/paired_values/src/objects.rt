//! The objects of values.

ghost use Rattle.std.specs.Prelude.{◌≡◌, [], map, OnOk, codes};
ghost use Rattle.count_eval.specs.Vocabulary.{cell_of};
ghost use Rattle.answer_json.specs.Vocabulary.{with_value, with_values, with_member, array_of};
ghost use Rattle.primed_names.specs.Vocabulary.{primed_names};
ghost use Rattle.evaluate_command.specs.Vocabulary.{plain_of};
ghost use Rattle.paired_values.specs.Objects.{axes_json, axis_json, cells_json, pinned_json, value_json, values_json};

use crate::axes::Axis;
use crate::shown::ShownAtCells;
use answer_json::Object;
use count_answers::{level_text, number_at};
use count_json::push_cell;
use count_table::Counts;
use evaluate_command::{Shown, Valued, Values};
use mixed_graph::{Names, VSet};
use primed_names::primed_names;
use std::alloc::AllocError;

/// A name with the level of its vertex there.
fn push_axis(
    object: &mut Object,
    all: &Names,
    counts: &Counts,
    cell: &[u32],
    axis: Axis,
) -> Result<(), AllocError>
    ensures { OnOk result (object.new ≡ with_value (axis_json all.now counts.now (cell_of cell.now) axis) object.old) }
{
    object.begin_array()?;
    object.vertex(all, axis.name)?;
    object.text(level_text(counts, axis.vertex, number_at(cell, axis.name)))?;
    object.end_array()?;
    Ok(())
}

/// Names with their levels, in their order.
fn push_each_axis(
    object: &mut Object,
    all: &Names,
    counts: &Counts,
    cell: &[u32],
    axes: &[Axis],
) -> Result<(), AllocError>
    ensures { OnOk result (object.new ≡ with_values (map (axis_json all.now counts.now (cell_of cell.now)) axes.now) object.old) }
{
    for axis in axes {
        push_axis(object, all, counts, cell, *axis)?;
    }
    Ok(())
}

/// The member of this name with names and their levels in a cell.
#[tactic(auto, using(answer_json::proofs::Arrays::array_written))]
pub fn push_axes(
    object: &mut Object,
    name: &str,
    all: &Names,
    counts: &Counts,
    cell: &[u32],
    axes: &[Axis],
) -> Result<(), AllocError>
    ensures { OnOk result (object.new ≡ with_member name.now (axes_json all.now counts.now axes.now cell.now) object.old) }
{
    object.key(name)?;
    object.begin_array()?;
    push_each_axis(object, all, counts, cell, axes)?;
    object.end_array()?;
    Ok(())
}

/// The member of what is pinned, at its first levels.
pub fn push_pinned(
    object: &mut Object,
    names: &Names,
    counts: &Counts,
    pinned: VSet,
) -> Result<(), AllocError>
    ensures { OnOk result (object.new ≡ with_member (codes "pinned") (pinned_json names.now counts.now pinned.bits) object.old) }
{
    object.key("pinned")?;
    push_cell(object, names, counts, pinned, &[])?;
    Ok(())
}

/// A cell with its quantity.
fn push_value<Q: Shown, A: ShownAtCells>(
    object: &mut Object,
    names: &Names,
    all: &Names,
    answer: &A,
    valued: &Valued<Q>,
) -> Result<(), AllocError>
    ensures { all.now ≡ primed_names names.now (A.treatment answer.now)
        → OnOk result (object.new ≡ with_value (value_json Q.IS_EXACT (A.levels answer.now names.now) (plain_of Q.numbers valued.now)) object.old) }
{
    object.begin_object()?;
    answer.push_levels(object, names, all, valued.cell.as_slice())?;
    valued.quantity.push_members(object)?;
    object.end_object()?;
    Ok(())
}

/// Cells with their quantities, in their order.
fn push_each<Q: Shown, A: ShownAtCells>(
    object: &mut Object,
    names: &Names,
    answer: &A,
    values: &[Valued<Q>],
) -> Result<(), AllocError>
    ensures { OnOk result (object.new ≡ with_values (cells_json Q.numbers Q.IS_EXACT (A.levels answer.now names.now) values.now) object.old) }
{
    let all = primed_names(object.alloc(), names, answer.treatment())?;
    for valued in values {
        push_value(object, names, &all, answer, valued)?;
    }
    Ok(())
}

/// The cells of values, in their order.
fn push_each_value<A: ShownAtCells>(
    object: &mut Object,
    names: &Names,
    answer: &A,
    values: &Values,
) -> Result<(), AllocError>
    ensures { OnOk result (object.new ≡ with_values (values_json (A.levels answer.now names.now) values.now) object.old) }
{
    match values {
        Values::Exact(values) => push_each(object, names, answer, values.as_slice()),
        Values::Bounds(values) => push_each(object, names, answer, values.as_slice()),
    }
}

/// The member of the cells of an answer's values.
#[tactic(auto, using(answer_json::proofs::Arrays::array_written))]
pub fn push_cells_of<A: ShownAtCells>(
    object: &mut Object,
    names: &Names,
    answer: &A,
    values: &Values,
) -> Result<(), AllocError>
    ensures { OnOk result (object.new ≡ with_member (codes "cells") (array_of (values_json (A.levels answer.now names.now) values.now)) object.old) }
{
    object.key("cells")?;
    object.begin_array()?;
    push_each_value(object, names, answer, values)?;
    object.end_array()?;
    Ok(())
}
