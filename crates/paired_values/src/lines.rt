//! The lines of values.

ghost use Rattle.std.specs.Prelude.{◌≡◌, ◌++◌, codes, OnOk};
ghost use Rattle.std.specs.List.{flat_map};
ghost use Rattle.count_eval.specs.Vocabulary.{cell_of};
ghost use Rattle.primed_names.specs.Vocabulary.{primed_names};
ghost use Rattle.evaluate_command.specs.Vocabulary.{plain_of, sign_of};
ghost use Rattle.paired_values.specs.Lines.{axis_text, cells_text, value_line, values_text};

use crate::axes::Axis;
use crate::shown::ShownAtCells;
use answer_text::push_vertex;
use count_answers::{level_text, number_at, push_level};
use count_table::Counts;
use evaluate_command::{Shown, Valued, Values, sign_of};
use mixed_graph::Names;
use primed_names::primed_names;
use std::alloc::{AllocError, Global};

/// Appends a name with the level of its vertex there, behind a comma, as `,X'=level`.
fn push_axis(
    out: &mut Vec<u8>,
    all: &Names,
    counts: &Counts,
    cell: &[u32],
    axis: Axis,
) -> Result<(), AllocError>
    ensures { OnOk result (out.new.items ≡ out.old.items ++ axis_text all.now counts.now (cell_of cell.now) axis) }
{
    out.push(b',')?;
    push_vertex(out, all, axis.name)?;
    out.push(b'=')?;
    push_level(
        out,
        level_text(counts, axis.vertex, number_at(cell, axis.name)),
    )?;
    Ok(())
}

/// Appends names with their levels, each behind a comma.
pub fn push_axes_text(
    out: &mut Vec<u8>,
    all: &Names,
    counts: &Counts,
    cell: &[u32],
    axes: &[Axis],
) -> Result<(), AllocError>
    ensures { OnOk result (out.new.items ≡ out.old.items ++ flat_map (axis_text all.now counts.now (cell_of cell.now)) axes.now) }
{
    for axis in axes {
        push_axis(out, all, counts, cell, *axis)?;
    }
    Ok(())
}

/// Appends a quantity behind its sign, and ends the line.
fn push_quantity<Q: Shown>(alloc: Global, out: &mut Vec<u8>, quantity: &Q) -> Result<(), AllocError>
    ensures { OnOk result (out.new.items ≡ out.old.items ++ (sign_of Q.IS_EXACT ++ (Q.kind.text (Q.numbers quantity.now) ++ codes "\n"))) }
{
    out.extend_from_slice(sign_of(Q::IS_EXACT))?;
    quantity.print(alloc, out)?;
    out.push(b'\n')?;
    Ok(())
}

/// Appends the line of a cell with its quantity.
fn push_line<Q: Shown, A: ShownAtCells>(
    alloc: Global,
    out: &mut Vec<u8>,
    names: &Names,
    all: &Names,
    answer: &A,
    valued: &Valued<Q>,
) -> Result<(), AllocError>
    ensures { all.now ≡ primed_names names.now (A.treatment answer.now)
        → OnOk result (out.new.items ≡ out.old.items ++ value_line Q.kind Q.IS_EXACT (A.effect answer.now names.now) (plain_of Q.numbers valued.now)) }
{
    answer.push_effect(alloc, out, names, all, valued.cell.as_slice())?;
    push_quantity(alloc, out, &valued.quantity)?;
    Ok(())
}

/// Appends the lines of cells with their quantities.
fn push_lines<Q: Shown, A: ShownAtCells>(
    alloc: Global,
    out: &mut Vec<u8>,
    names: &Names,
    answer: &A,
    values: &[Valued<Q>],
) -> Result<(), AllocError>
    ensures { OnOk result (out.new.items ≡ out.old.items ++ cells_text Q.numbers Q.kind Q.IS_EXACT (A.effect answer.now names.now) values.now) }
{
    let all = primed_names(alloc, names, answer.treatment())?;
    for valued in values {
        push_line(alloc, out, names, &all, answer, valued)?;
    }
    Ok(())
}

/// Appends the lines of the values of an answer.
pub fn push_values_text<A: ShownAtCells>(
    alloc: Global,
    out: &mut Vec<u8>,
    names: &Names,
    answer: &A,
    values: &Values,
) -> Result<(), AllocError>
    ensures { OnOk result (out.new.items ≡ out.old.items ++ values_text (A.effect answer.now names.now) values.now) }
{
    match values {
        Values::Exact(values) => push_lines(alloc, out, names, answer, values.as_slice()),
        Values::Bounds(values) => push_lines(alloc, out, names, answer, values.as_slice()),
    }
}
