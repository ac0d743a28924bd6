//! The lines of an answer.

ghost use Rattle.std.specs.Prelude.{◌≡◌, ◌++◌, ◌∷◌, [], codes, map, if◌then◌else◌, OnOk, IfOk};
ghost use Rattle.std.specs.List.{flat_map};
ghost use Rattle.mixed_graph.specs.Vocabulary.{has, members_below, is_empty};
ghost use Rattle.prob_expr.specs.Vocabulary.{target_view};
ghost use Rattle.count_eval.specs.Vocabulary.{cell_of};
ghost use Rattle.evaluate_command.specs.Lines.{doing_text, given_text, effect_text, sign_of, value_line, cells_text, pinned_line, pinned_lines, broken_line};
ghost use Rattle.evaluate_command.specs.Listed.{plain_of};
ghost use Rattle.evaluate_command.specs.Listings.{cells_lines, values_lines};

use crate::answer::{EffectValues, Valued, Values};
use crate::shown::Shown;
use count_answers::{push_assignment, push_assignments};
use count_table::Counts;
use implications::Implication;
use implications_command::push_pair;
use mixed_graph::{Names, VSet};
use prob_expr::Target;
use std::alloc::{AllocError, Global};

/// Appends what is done: nothing where x is empty.
pub fn push_doing(
    out: &mut Vec<u8>,
    names: &Names,
    target: &Target,
    counts: &Counts,
    cell: &[u32],
) -> Result<(), AllocError>
    ensures { OnOk result (out.new.items ≡ out.old.items ++ doing_text names.now (target_view target.now) counts.now (cell_of cell.now)) }
{
    if target.x.is_empty() {
        return Ok(());
    }
    out.extend_from_slice(b"|do(")?;
    push_assignments(out, names, counts, target.x, cell)?;
    out.push(b')')?;
    Ok(())
}

/// Appends what is given, behind a bar or a comma: nothing where nothing is given.
pub fn push_given(
    out: &mut Vec<u8>,
    names: &Names,
    target: &Target,
    counts: &Counts,
    cell: &[u32],
) -> Result<(), AllocError>
    ensures { OnOk result (out.new.items ≡ out.old.items ++ given_text names.now (target_view target.now) counts.now (cell_of cell.now)) }
{
    if target.given.is_empty() {
        return Ok(());
    }
    out.push(given_sign(target.x))?;
    push_assignments(out, names, counts, target.given, cell)?;
    Ok(())
}

/// What stands before a condition: a comma behind what is done, and a bar where nothing is.
fn given_sign(x: VSet) -> u8
    ensures { result ≡ (if is_empty x.bits then 124 else 44) }
{
    if x.is_empty() { b'|' } else { b',' }
}

/// Appends the effect at a cell, as `P(Y=level|do(X=level),Z=level)`.
fn push_effect(
    out: &mut Vec<u8>,
    names: &Names,
    target: &Target,
    counts: &Counts,
    cell: &[u32],
) -> Result<(), AllocError>
    ensures { OnOk result (out.new.items ≡ out.old.items ++ effect_text names.now (target_view target.now) counts.now (cell_of cell.now)) }
{
    out.extend_from_slice(b"P(")?;
    push_assignments(out, names, counts, target.y, cell)?;
    push_doing(out, names, target, counts, cell)?;
    push_given(out, names, target, counts, cell)?;
    out.push(b')')?;
    Ok(())
}

/// What stands between an effect and its value.
pub fn sign_of(exact: bool) -> &'static [u8]
    ensures { result.now ≡ sign_of exact }
{
    if exact { b" = " } else { b" " }
}

/// Appends the line of a cell with its quantity.
fn push_line<Q: Shown>(
    alloc: Global,
    out: &mut Vec<u8>,
    names: &Names,
    target: &Target,
    counts: &Counts,
    valued: &Valued<Q>,
) -> Result<(), AllocError>
    ensures { OnOk result (out.new.items ≡ out.old.items ++ value_line Q.kind (sign_of Q.IS_EXACT) names.now (target_view target.now) counts.now (plain_of Q.numbers valued.now)) }
{
    push_effect(out, names, target, counts, valued.cell.as_slice())?;
    out.extend_from_slice(sign_of(Q::IS_EXACT))?;
    valued.quantity.print(alloc, out)?;
    out.push(b'\n')?;
    Ok(())
}

/// Appends the lines of cells with their quantities.
fn push_lines<Q: Shown>(
    alloc: Global,
    out: &mut Vec<u8>,
    names: &Names,
    target: &Target,
    counts: &Counts,
    values: &[Valued<Q>],
) -> Result<(), AllocError>
    ensures { OnOk result (out.new.items ≡ out.old.items ++ cells_text Q.numbers Q.kind Q.IS_EXACT names.now (target_view target.now) counts.now values.now) }
{
    for valued in values {
        push_line(alloc, out, names, target, counts, valued)?;
    }
    Ok(())
}

/// Appends the line of v at its first level, where v is a member.
fn push_pinned(
    out: &mut Vec<u8>,
    names: &Names,
    counts: &Counts,
    set: VSet,
    v: u8,
) -> Result<(), AllocError>
    ensures { OnOk result (out.new.items ≡ out.old.items ++ (if has set.bits v then pinned_line names.now counts.now v else [])) }
{
    if !set.has(v) {
        return Ok(());
    }
    out.extend_from_slice(b"pinned ")?;
    push_assignment(out, names, counts, v, 0)?;
    out.push(b'\n')?;
    Ok(())
}

/// The lines of vertices at their first levels.
pub fn pinned_lines(
    alloc: Global,
    names: &Names,
    counts: &Counts,
    pinned: VSet,
) -> Result<Vec<u8>, AllocError>
    ensures { IfOk result (λ v. v.items ≡ pinned_lines names.now counts.now pinned.bits) }
{
    let mut text = Vec::new(alloc);
    for v in 0..64u8 {
        push_pinned(&mut text, names, counts, pinned, v)?;
    }
    Ok(text)
}

/// Appends the lines of the cells.
fn push_values(
    alloc: Global,
    out: &mut Vec<u8>,
    names: &Names,
    answer: &EffectValues,
) -> Result<(), AllocError>
    ensures { OnOk result (out.new.items ≡ out.old.items ++ cells_lines names.now answer.now answer.now.values) }
{
    let (target, counts) = (&answer.target, &answer.counts);
    match &answer.values {
        Values::Exact(values) => {
            push_lines(alloc, out, names, target, counts, values.as_slice())
        }
        Values::Bounds(values) => {
            push_lines(alloc, out, names, target, counts, values.as_slice())
        }
    }
}

/// Appends the line of the pair by which no model has the counts: nothing where there is none.
fn push_broken(
    out: &mut Vec<u8>,
    names: &Names,
    broken: Option<Implication>,
) -> Result<(), AllocError>
    ensures { OnOk result (out.new.items ≡ out.old.items ++ broken_line names.now broken) }
{
    let Some(pair) = broken else {
        return Ok(());
    };
    out.extend_from_slice(b"no model of the diagram has these counts: ")?;
    push_pair(out, names, &pair)?;
    Ok(())
}

/// The lines of what is pinned, those of the cells, and that of the pair by which no model has the counts.
pub fn values_text(
    alloc: Global,
    names: &Names,
    answer: &EffectValues,
) -> Result<Vec<u8>, AllocError>
    ensures { IfOk result (λ v. v.items ≡ values_lines names.now answer.now) }
{
    let mut text = pinned_lines(alloc, names, &answer.counts, answer.pinned)?;
    push_values(alloc, &mut text, names, answer)?;
    push_broken(&mut text, names, answer.broken)?;
    Ok(text)
}
