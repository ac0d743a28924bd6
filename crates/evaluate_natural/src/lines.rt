//! The lines of an answer.

ghost use Rattle.std.specs.Prelude.{◌≡◌, ◌++◌, drop, map, OnOk, IfOk};
ghost use Rattle.mixed_graph.specs.Vocabulary.{has, members_below};
ghost use Rattle.count_eval.specs.Vocabulary.{cell_of};
ghost use Rattle.count_answers.specs.Vocabulary.{with_commas};
ghost use Rattle.primed_names.specs.Vocabulary.{primed_names};
ghost use Rattle.evaluate_natural.specs.Lines.{condition_text, effect_text, outcome_text, second_text, under_text, values_lines};

use crate::answer::Answer;
use answer_text::push_vertex;
use count_answers::{level_text, number_at, push_assignments, push_level, separator};
use count_table::Counts;
use evaluate_command::pinned_lines;
use mixed_graph::{Names, VSet};
use natural_command::push_group;
use paired_values::{Axis, push_axes_text, push_values_text};
use std::alloc::{AllocError, Global};

/// What stands behind the first byte.
fn behind_first(text: &[u8]) -> &[u8]
    ensures { result.now ≡ drop 1 text.now }
{
    match text {
        [_, rest @ ..] => rest,
        [] => text,
    }
}

/// Appends names with the levels of their vertices there, as `X'=level`, with commas between them.
fn push_second(
    alloc: Global,
    out: &mut Vec<u8>,
    all: &Names,
    counts: &Counts,
    cell: &[u32],
    axes: &[Axis],
) -> Result<(), AllocError>
    ensures { OnOk result (out.new.items ≡ out.old.items ++ second_text all.now counts.now (cell_of cell.now) axes.now) }
{
    let mut text = Vec::new(alloc);
    push_axes_text(&mut text, all, counts, cell, axes)?;
    out.extend_from_slice(behind_first(text.as_slice()))?;
    Ok(())
}

/// Appends x at its first levels, and the mediators under the second ones, as `X=level,M[X'=level]`.
fn push_under(
    alloc: Global,
    out: &mut Vec<u8>,
    names: &Names,
    all: &Names,
    answer: &Answer,
    cell: &[u32],
) -> Result<(), AllocError>
    ensures { all.now ≡ primed_names names.now answer.now.asked.question.x.bits
        → OnOk result (out.new.items ≡ out.old.items ++ under_text names.now answer.now (cell_of cell.now)) }
{
    let (question, counts) = (answer.asked.question, &answer.counts);
    push_assignments(out, names, counts, question.x, cell)?;
    out.extend_from_slice(b",")?;
    push_group(alloc, out, names, question.through)?;
    out.extend_from_slice(b"[")?;
    push_second(alloc, out, all, counts, cell, answer.second.as_slice())?;
    out.extend_from_slice(b"]")?;
    Ok(())
}

/// Appends a vertex with its level of that number, as `Y[X=level,M[X'=level]]=level`.
fn push_outcome(
    out: &mut Vec<u8>,
    names: &Names,
    counts: &Counts,
    under: &[u8],
    v: u8,
    k: u32,
) -> Result<(), AllocError>
    ensures { OnOk result (out.new.items ≡ out.old.items ++ outcome_text names.now counts.now under.now (λ u. k) v) }
{
    push_vertex(out, names, v)?;
    out.extend_from_slice(b"[")?;
    out.extend_from_slice(under)?;
    out.extend_from_slice(b"]=")?;
    push_level(out, level_text(counts, v, k))?;
    Ok(())
}

/// Appends the members of a set with their levels in a cell, in index order with commas between them.
fn push_outcomes(
    out: &mut Vec<u8>,
    names: &Names,
    counts: &Counts,
    under: &[u8],
    set: VSet,
    cell: &[u32],
) -> Result<(), AllocError>
    ensures { OnOk result (out.new.items ≡ out.old.items
        ++ with_commas (map (outcome_text names.now counts.now under.now (cell_of cell.now)) (members_below (has set.bits) 64))) }
{
    let mut rest = set.iter();
    'members: while let Some(v) = rest.next() {
        push_outcome(out, names, counts, under, v, number_at(cell, v))?;
        out.extend_from_slice(separator(&rest))?;
    }
    Ok(())
}

/// Appends what is given behind a bar: nothing where nothing is given.
fn push_condition(
    out: &mut Vec<u8>,
    names: &Names,
    answer: &Answer,
    cell: &[u32],
) -> Result<(), AllocError>
    ensures { OnOk result (out.new.items ≡ out.old.items ++ condition_text names.now answer.now (cell_of cell.now)) }
{
    let given = answer.asked.question.given;
    if given.is_empty() {
        return Ok(());
    }
    out.extend_from_slice(b"|")?;
    push_assignments(out, names, &answer.counts, given, cell)?;
    Ok(())
}

/// Appends the effect at a cell, as `P(Y[X=level,M[X'=level]]=level|Z=level)`.
pub fn push_effect(
    alloc: Global,
    out: &mut Vec<u8>,
    names: &Names,
    all: &Names,
    answer: &Answer,
    cell: &[u32],
) -> Result<(), AllocError>
    ensures { all.now ≡ primed_names names.now answer.now.asked.question.x.bits
        → OnOk result (out.new.items ≡ out.old.items ++ effect_text names.now answer.now (cell_of cell.now)) }
{
    let mut under = Vec::new(alloc);
    push_under(alloc, &mut under, names, all, answer, cell)?;
    let y = answer.asked.question.y;
    out.extend_from_slice(b"P(")?;
    push_outcomes(out, names, &answer.counts, under.as_slice(), y, cell)?;
    push_condition(out, names, answer, cell)?;
    out.extend_from_slice(b")")?;
    Ok(())
}

/// The lines of what is pinned, and those of the values.
pub fn values_text(alloc: Global, names: &Names, answer: &Answer) -> Result<Vec<u8>, AllocError>
    ensures { IfOk result (λ v. v.items ≡ values_lines names.now answer.now) }
{
    let mut text = pinned_lines(alloc, names, &answer.counts, answer.pinned)?;
    push_values_text(alloc, &mut text, names, answer, &answer.values)?;
    Ok(text)
}
