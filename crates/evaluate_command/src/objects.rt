//! The members of the object of an effect's values.

ghost use Rattle.std.specs.Prelude.{◌≡◌, ◌++◌, map, OnOk, codes};
ghost use Rattle.prob_expr.specs.Vocabulary.{target_view};
ghost use Rattle.answer_json.specs.Vocabulary.{with_value, with_values, with_member, with_members, array_of};
ghost use Rattle.evaluate_command.specs.Objects.{cell_members, value_json, cells_json, effect_members, values_members};
ghost use Rattle.evaluate_command.specs.Listed.{plain_of};
ghost use Rattle.evaluate_command.specs.Listings.{effect_object};

use crate::answer::{EffectValues, Valued, Values};
use crate::shown::Shown;
use answer_json::Object;
use count_json::push_cell;
use count_table::Counts;
use implications_command::push_broken;
use mixed_graph::{Names, VSet};
use prob_expr::Target;
use std::alloc::AllocError;

/// The members of the levels of y, of x and of what is given in a cell.
pub fn push_levels(
    object: &mut Object,
    names: &Names,
    target: &Target,
    counts: &Counts,
    cell: &[u32],
) -> Result<(), AllocError>
    ensures { OnOk result (object.new ≡ with_members (cell_members names.now (target_view target.now) counts.now cell.now) object.old) }
{
    object.key("y")?;
    push_cell(object, names, counts, target.y, cell)?;
    object.key("x")?;
    push_cell(object, names, counts, target.x, cell)?;
    object.key("given")?;
    push_cell(object, names, counts, target.given, cell)?;
    Ok(())
}

/// A cell with its quantity.
fn push_value<Q: Shown>(
    object: &mut Object,
    names: &Names,
    target: &Target,
    counts: &Counts,
    valued: &Valued<Q>,
) -> Result<(), AllocError>
    ensures { OnOk result (object.new ≡ with_value (value_json Q.IS_EXACT names.now (target_view target.now) counts.now (plain_of Q.numbers valued.now)) object.old) }
{
    object.begin_object()?;
    push_levels(object, names, target, counts, valued.cell.as_slice())?;
    valued.quantity.push_members(object)?;
    object.end_object()?;
    Ok(())
}

/// Cells with their quantities, in their order.
fn push_all<Q: Shown>(
    object: &mut Object,
    names: &Names,
    target: &Target,
    counts: &Counts,
    values: &[Valued<Q>],
) -> Result<(), AllocError>
    ensures { OnOk result (object.new ≡ with_values (cells_json Q.numbers Q.IS_EXACT names.now (target_view target.now) counts.now values.now) object.old) }
{
    for valued in values {
        push_value(object, names, target, counts, valued)?;
    }
    Ok(())
}

/// The member of the cells.
#[tactic(auto, using(answer_json::proofs::Arrays::array_written))]
fn cells_at<Q: Shown>(
    object: &mut Object,
    names: &Names,
    target: &Target,
    counts: &Counts,
    values: &[Valued<Q>],
) -> Result<(), AllocError>
    ensures { OnOk result (object.new ≡ with_member (codes "cells") (array_of (cells_json Q.numbers Q.IS_EXACT names.now (target_view target.now) counts.now values.now)) object.old) }
{
    object.key("cells")?;
    object.begin_array()?;
    push_all(object, names, target, counts, values)?;
    object.end_array()?;
    Ok(())
}

/// What stands before the cells: whether the values are exact, the effect, and what is pinned.
fn begin_values(
    object: &mut Object,
    names: &Names,
    target: &Target,
    counts: &Counts,
    pinned: VSet,
    exact: bool,
) -> Result<(), AllocError>
    ensures { OnOk result (object.new ≡ with_members (effect_members exact names.now (target_view target.now) counts.now pinned.bits) object.old) }
{
    object.word_at("answer", "values")?;
    object.key("exact")?;
    object.boolean(exact)?;
    object.set_at("y", names, target.y)?;
    object.set_at("x", names, target.x)?;
    object.set_at("given", names, target.given)?;
    object.key("pinned")?;
    push_cell(object, names, counts, pinned, &[])?;
    Ok(())
}

/// The members of the values in a kind of quantity.
fn push_values<Q: Shown>(
    object: &mut Object,
    names: &Names,
    answer: &EffectValues,
    values: &[Valued<Q>],
) -> Result<(), AllocError>
    ensures { OnOk result (object.new ≡ with_members (values_members Q.numbers Q.IS_EXACT names.now (target_view answer.now.target) answer.now.counts answer.now.pinned.bits values.now answer.now.broken) object.old) }
{
    let (target, counts) = (&answer.target, &answer.counts);
    begin_values(object, names, target, counts, answer.pinned, Q::IS_EXACT)?;
    cells_at(object, names, target, counts, values)?;
    push_broken(object, names, answer.broken)?;
    Ok(())
}

/// The members of the values.
pub fn push_effect_values(
    object: &mut Object,
    names: &Names,
    answer: &EffectValues,
) -> Result<(), AllocError>
    ensures { OnOk result (object.new ≡ with_members (effect_object names.now answer.now answer.now.values) object.old) }
{
    match &answer.values {
        Values::Exact(values) => push_values(object, names, answer, values.as_slice()),
        Values::Bounds(values) => push_values(object, names, answer, values.as_slice()),
    }
}
