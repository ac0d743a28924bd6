//! The lines of an answer.

ghost use Rattle.std.specs.Prelude.{◌≡◌, ◌++◌, OnOk, IfOk};
ghost use Rattle.std.specs.List.{flat_map};
ghost use Rattle.count_eval.specs.Vocabulary.{cell_of};
ghost use Rattle.count_answers.specs.Vocabulary.{assignments};
ghost use Rattle.implications_command.specs.Lines.{pair_line, pair_lines, vertices_of, value_text, difference_line, measured_lines};

use crate::differences::Measured;
use answer_text::{push_set, push_vertex};
use count_answers::{entries, number_at, push_assignment, push_assignments, separator};
use count_table::Counts;
use implications::Implication;
use implied_differences::Difference;
use mixed_graph::Names;
use std::alloc::{AllocError, Global};

/// Appends the line of a pair: `A from C given {B}`. The only error is want of memory.
pub fn push_pair(out: &mut Vec<u8>, names: &Names, i: &Implication) -> Result<(), AllocError>
    ensures { OnOk result (out.new.items ≡ out.old.items ++ pair_line names.now i.now) }
{
    push_vertex(out, names, i.a)?;
    out.extend_from_slice(b" from ")?;
    push_vertex(out, names, i.b)?;
    out.extend_from_slice(b" given ")?;
    push_set(out, names, i.given)?;
    out.push(b'\n')?;
    Ok(())
}

/// The lines of pairs.
pub fn pair_lines(alloc: Global, names: &Names, list: &[Implication]) -> Result<Vec<u8>, AllocError>
    ensures { IfOk result (λ v. v.items ≡ pair_lines names.now list.now) }
{
    let mut text = Vec::new(alloc);
    for i in list {
        push_pair(&mut text, names, i)?;
    }
    Ok(text)
}

/// Appends the levels of a pair and of what is given in a cell: `A=0,C=0,B=1`.
fn push_cell(
    out: &mut Vec<u8>,
    names: &Names,
    counts: &Counts,
    i: &Implication,
    cell: &[u32],
) -> Result<(), AllocError>
    ensures { OnOk result (out.new.items ≡ out.old.items ++ assignments names.now counts.now (cell_of cell.now) (vertices_of i.now)) }
{
    push_assignment(out, names, counts, i.a, number_at(cell, i.a))?;
    out.push(b',')?;
    push_assignment(out, names, counts, i.b, number_at(cell, i.b))?;
    out.extend_from_slice(separator(&i.given.iter()))?;
    push_assignments(out, names, counts, i.given, cell)?;
    Ok(())
}

/// Appends the value of a difference: `largest difference -5 at `.
fn push_value(alloc: Global, out: &mut Vec<u8>, value: i128) -> Result<(), AllocError>
    ensures { OnOk result (out.new.items ≡ out.old.items ++ value_text value) }
{
    let text = format!(in alloc; "largest difference {value} at ")?;
    out.extend_from_slice(text.as_bytes())?;
    Ok(())
}

/// Appends the line of a difference: `largest difference -5 at A=0,C=0,B=1`.
fn push_difference(
    alloc: Global,
    out: &mut Vec<u8>,
    names: &Names,
    counts: &Counts,
    i: &Implication,
    d: Difference,
) -> Result<(), AllocError>
    ensures { OnOk result (out.new.items ≡ out.old.items ++ difference_line names.now counts.now i.now d) }
{
    push_value(alloc, out, d.value)?;
    push_cell(out, names, counts, i, entries(&d.cell))?;
    out.push(b'\n')?;
    Ok(())
}

/// Appends the line of a pair, and that of its difference.
fn push_measured(
    alloc: Global,
    out: &mut Vec<u8>,
    names: &Names,
    counts: &Counts,
    m: &Measured,
) -> Result<(), AllocError>
    ensures { OnOk result (out.new.items ≡ out.old.items ++ measured_lines names.now counts.now m.now) }
{
    push_pair(out, names, &m.pair)?;
    push_difference(alloc, out, names, counts, &m.pair, m.difference)?;
    Ok(())
}

/// The lines of pairs with their differences.
pub fn difference_lines(
    alloc: Global,
    names: &Names,
    counts: &Counts,
    measured: &[Measured],
) -> Result<Vec<u8>, AllocError>
    ensures { IfOk result (λ v. v.items ≡ flat_map (measured_lines names.now counts.now) measured.now) }
{
    let mut text = Vec::new(alloc);
    for m in measured {
        push_measured(alloc, &mut text, names, counts, m)?;
    }
    Ok(text)
}
