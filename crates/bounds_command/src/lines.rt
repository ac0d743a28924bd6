//! The lines of an answer.

ghost use Rattle.std.specs.Prelude.{◌≡◌, ◌++◌, OnOk, IfOk, string_bytes};
ghost use Rattle.std.specs.List.{flat_map};
ghost use Rattle.count_eval.specs.Vocabulary.{cell_of};
ghost use Rattle.quantity.specs.Vocabulary.{units_text};
ghost use Rattle.bounds_command.specs.Lines.{given_text, effect_text, value_text, ratio_text, ends_text, bounds_line, crossing_lines};

use bound_values::{CellBounds, CellCrossing, Question, Ratio, Value};
use count_answers::{entries, push_assignments};
use count_table::Counts;
use mixed_graph::{Names, VSet};
use std::alloc::{AllocError, Global};

/// How many units are 1.
const UNIT: u128 = 1_000_000_000_000_000_000;

/// An end of a bound, as `3/5` or `0.600000000000000000`.
pub fn value_text(alloc: Global, value: Value) -> Result<String, AllocError>
    ensures { IfOk result (λ text. string_bytes text ≡ value_text value) }
{
    match value {
        Value::Fraction { top, bottom } => fraction_text(alloc, top, bottom),
        Value::Units(n) => units_text(alloc, n),
    }
}

/// A fraction.
fn fraction_text(alloc: Global, top: u128, bottom: u128) -> Result<String, AllocError>
    ensures { IfOk result (λ text. string_bytes text ≡ ratio_text top bottom) }
{
    format!(in alloc; "{top}/{bottom}")
}

/// The text of n units of 10^-18: the whole part, a point and 18 digits.
fn units_text(alloc: Global, n: u128) -> Result<String, AllocError>
    ensures { IfOk result (λ text. string_bytes text ≡ units_text n) }
{
    format!(in alloc; "{}.{:018}", n / UNIT, n % UNIT)
}

/// A fraction of counts.
pub fn counts_text(alloc: Global, ratio: Ratio) -> Result<String, AllocError>
    ensures { IfOk result (λ text. string_bytes text ≡ ratio_text ratio.top ratio.bottom) }
{
    let Ratio { top, bottom, .. } = ratio;
    format!(in alloc; "{top}/{bottom}")
}

/// Appends what is given, behind a comma: nothing where nothing is given.
fn push_given(
    out: &mut Vec<u8>,
    names: &Names,
    counts: &Counts,
    given: VSet,
    cell: &[u32],
) -> Result<(), AllocError>
    ensures { OnOk result (out.new.items ≡ out.old.items ++ given_text names.now counts.now given.bits (cell_of cell.now)) }
{
    if given.is_empty() {
        return Ok(());
    }
    out.push(b',')?;
    push_assignments(out, names, counts, given, cell)?;
    Ok(())
}

/// Appends the effect at a cell, as `P(Y=level|do(X=level),Z=level)`.
fn push_effect(
    out: &mut Vec<u8>,
    names: &Names,
    counts: &Counts,
    question: Question,
    given: VSet,
    cell: &[u32],
) -> Result<(), AllocError>
    ensures { OnOk result (out.new.items ≡ out.old.items ++ effect_text names.now counts.now question given.bits (cell_of cell.now)) }
{
    out.extend_from_slice(b"P(")?;
    push_assignments(out, names, counts, question.y, cell)?;
    out.extend_from_slice(b"|do(")?;
    push_assignments(out, names, counts, question.x, cell)?;
    out.push(b')')?;
    push_given(out, names, counts, given, cell)?;
    out.push(b')')?;
    Ok(())
}

/// Appends both ends and ends the line.
fn push_ends(out: &mut Vec<u8>, at_least: &str, at_most: &str) -> Result<(), AllocError>
    ensures { OnOk result (out.new.items ≡ out.old.items ++ ends_text at_least.now at_most.now) }
{
    out.extend_from_slice(b" at least ")?;
    out.extend_from_slice(at_least.as_bytes())?;
    out.extend_from_slice(b", at most ")?;
    out.extend_from_slice(at_most.as_bytes())?;
    out.push(b'\n')?;
    Ok(())
}

/// Appends the line of a cell.
#[tactic(auto, unfolding(crate::specs::Lines::bounds_line))]
fn push_line(
    alloc: Global,
    out: &mut Vec<u8>,
    names: &Names,
    counts: &Counts,
    question: Question,
    bounds: &CellBounds,
) -> Result<(), AllocError>
    ensures { OnOk result (out.new.items ≡ out.old.items ++ bounds_line names.now counts.now question bounds.now) }
{
    let at_least = value_text(alloc, bounds.at_least)?;
    let at_most = value_text(alloc, bounds.at_most)?;
    push_effect(
        out,
        names,
        counts,
        question,
        question.given,
        entries(&bounds.cell),
    )?;
    push_ends(out, at_least.as_str(), at_most.as_str())?;
    Ok(())
}

/// The lines of all cells.
pub fn lines_text(
    alloc: Global,
    names: &Names,
    counts: &Counts,
    question: Question,
    bounds: &[CellBounds],
) -> Result<Vec<u8>, AllocError>
    ensures { IfOk result (λ v. v.items ≡ flat_map (bounds_line names.now counts.now question) bounds.now) }
{
    let mut text = Vec::new(alloc);
    for b in bounds {
        push_line(alloc, &mut text, names, counts, question, b)?;
    }
    Ok(text)
}

/// The lines of a crossing.
pub fn crossing_text(
    alloc: Global,
    names: &Names,
    counts: &Counts,
    question: Question,
    found: &CellCrossing,
) -> Result<Vec<u8>, AllocError>
    ensures { IfOk result (λ v. v.items ≡ crossing_lines names.now counts.now question found.now) }
{
    let at_least = counts_text(alloc, found.crossing.lower)?;
    let at_most = counts_text(alloc, found.crossing.upper)?;
    let mut text = Vec::from_slice(alloc, b"no model of this diagram has these counts\n")?;
    push_effect(
        &mut text,
        names,
        counts,
        question,
        question.fixed(),
        entries(&found.cell),
    )?;
    push_ends(&mut text, at_least.as_str(), at_most.as_str())?;
    Ok(text)
}
