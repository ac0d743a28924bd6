//! The members of the objects.

ghost use Rattle.std.specs.Prelude.{◌≡◌, map, OnOk, codes};
ghost use Rattle.answer_json.specs.Vocabulary.{with_value, with_values, with_member, with_members, array_of};
ghost use Rattle.bounds_command.specs.Sentences.{asked_members, method_members};
ghost use Rattle.bounds_command.specs.Objects.{level_members, ends_members, bounds_json, bounds_begun, bounds_members, crossing_json, crossing_members};

use crate::lines::{counts_text, value_text};
use answer_json::Object;
use bound_values::{CellBounds, CellCrossing, Method, Question};
use count_answers::entries;
use count_json::push_cell;
use count_table::Counts;
use mixed_graph::Names;
use std::alloc::AllocError;

/// The sets that are asked of.
pub fn push_asked(object: &mut Object, names: &Names, question: Question) -> Result<(), AllocError>
    ensures { OnOk result (object.new ≡ with_members (asked_members names.now question) object.old) }
{
    object.query(names, question.x, question.y, question.given)?;
    push_method(object, names, question)?;
    Ok(())
}

/// The sets by which x and y are asked for.
fn push_method(object: &mut Object, names: &Names, question: Question) -> Result<(), AllocError>
    ensures { OnOk result (object.new ≡ with_members (method_members names.now question question.method) object.old) }
{
    match question.method {
        Method::Instruments | Method::LevelPairs => {
            object.set_at("instrument", names, question.instruments)?;
            object.set_at("strata", names, question.strata)
        }
        Method::Adjustment => object.set_at("set", names, question.strata),
    }
}

/// The levels of x, of y and of what is given in a cell.
fn push_levels(
    object: &mut Object,
    names: &Names,
    counts: &Counts,
    question: Question,
    cell: &[u32],
) -> Result<(), AllocError>
    ensures { OnOk result (object.new ≡ with_members (level_members names.now counts.now question cell.now) object.old) }
{
    object.key("x")?;
    push_cell(object, names, counts, question.x, cell)?;
    object.key("y")?;
    push_cell(object, names, counts, question.y, cell)?;
    object.key("given")?;
    push_cell(object, names, counts, question.given, cell)?;
    Ok(())
}

/// Both ends.
fn push_ends(object: &mut Object, at_least: &str, at_most: &str) -> Result<(), AllocError>
    ensures { OnOk result (object.new ≡ with_members (ends_members at_least.now at_most.now) object.old) }
{
    object.word_at("at_least", at_least)?;
    object.word_at("at_most", at_most)?;
    Ok(())
}

/// A cell with its bounds.
fn push_bound(
    object: &mut Object,
    names: &Names,
    counts: &Counts,
    question: Question,
    bounds: &CellBounds,
) -> Result<(), AllocError>
    ensures { OnOk result (object.new ≡ with_value (bounds_json names.now counts.now question bounds.now) object.old) }
{
    let at_least = value_text(object.alloc(), bounds.at_least)?;
    let at_most = value_text(object.alloc(), bounds.at_most)?;
    object.begin_object()?;
    push_levels(object, names, counts, question, entries(&bounds.cell))?;
    push_ends(object, at_least.as_str(), at_most.as_str())?;
    object.end_object()?;
    Ok(())
}

/// Cells with their bounds, in their order.
fn push_all(
    object: &mut Object,
    names: &Names,
    counts: &Counts,
    question: Question,
    bounds: &[CellBounds],
) -> Result<(), AllocError>
    ensures { OnOk result (object.new ≡ with_values (map (bounds_json names.now counts.now question) bounds.now) object.old) }
{
    for b in bounds {
        push_bound(object, names, counts, question, b)?;
    }
    Ok(())
}

/// The member of the cells.
#[tactic(auto, using(answer_json::proofs::Arrays::array_written))]
fn cells_at(
    object: &mut Object,
    names: &Names,
    counts: &Counts,
    question: Question,
    bounds: &[CellBounds],
) -> Result<(), AllocError>
    ensures { OnOk result (object.new ≡ with_member (codes "cells") (array_of (map (bounds_json names.now counts.now question) bounds.now)) object.old) }
{
    object.key("cells")?;
    object.begin_array()?;
    push_all(object, names, counts, question, bounds)?;
    object.end_array()?;
    Ok(())
}

/// What stands before the cells.
fn begin_bounds(
    object: &mut Object,
    names: &Names,
    question: Question,
    exact: bool,
) -> Result<(), AllocError>
    ensures { OnOk result (object.new ≡ with_members (bounds_begun names.now question exact) object.old) }
{
    object.word_at("answer", "bounds")?;
    object.key("exact")?;
    object.boolean(exact)?;
    push_asked(object, names, question)?;
    Ok(())
}

/// The members of the bounds at all cells.
pub fn push_bounds(
    object: &mut Object,
    names: &Names,
    counts: &Counts,
    question: Question,
    exact: bool,
    bounds: &[CellBounds],
) -> Result<(), AllocError>
    ensures { OnOk result (object.new ≡ with_members (bounds_members names.now counts.now question exact bounds.now) object.old) }
{
    begin_bounds(object, names, question, exact)?;
    cells_at(object, names, counts, question, bounds)?;
    Ok(())
}

/// The stratum where bounds cross, with them.
fn push_crossed(
    object: &mut Object,
    names: &Names,
    counts: &Counts,
    question: Question,
    found: &CellCrossing,
) -> Result<(), AllocError>
    ensures { OnOk result (object.new ≡ with_value (crossing_json names.now counts.now question found.now) object.old) }
{
    let at_least = counts_text(object.alloc(), found.crossing.lower)?;
    let at_most = counts_text(object.alloc(), found.crossing.upper)?;
    let cell = entries(&found.cell);
    object.begin_object()?;
    push_levels(object, names, counts, question, cell)?;
    object.key("strata")?;
    push_cell(object, names, counts, question.strata, cell)?;
    push_ends(object, at_least.as_str(), at_most.as_str())?;
    object.end_object()?;
    Ok(())
}

/// The members of a crossing.
pub fn push_crossing(
    object: &mut Object,
    names: &Names,
    counts: &Counts,
    question: Question,
    found: &CellCrossing,
) -> Result<(), AllocError>
    ensures { OnOk result (object.new ≡ with_members (crossing_members names.now counts.now question found.now) object.old) }
{
    object.word_at("answer", "no model")?;
    push_asked(object, names, question)?;
    object.key("crossed")?;
    push_crossed(object, names, counts, question, found)?;
    Ok(())
}
