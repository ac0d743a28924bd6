//! The members of the objects.

ghost use Rattle.std.specs.Prelude.{◌≡◌, codes, OnOk};
ghost use Rattle.answer_json.specs.Vocabulary.{object_of, with_member, with_members};
ghost use Rattle.primed_names.specs.Vocabulary.{primed_names};
ghost use Rattle.evaluate_treated.specs.Objects.{effect_members, levels_members, no_model_members, values_members};

use crate::answer::{AmongValues, NoModel};
use crate::lines::target_of;
use answer_json::Object;
use count_table::Counts;
use evaluate_command::push_levels as push_own_levels;
use mixed_graph::Names;
use paired_values::{Axis, are_exact, push_axes, push_cells_of, push_pinned};
use primed_names::primed_names;
use std::alloc::AllocError;
use treated_command::Asked;

/// The members of the levels of y, of x and of what is given in a cell, and of x as it was observed.
pub fn push_levels(
    object: &mut Object,
    names: &Names,
    all: &Names,
    asked: Asked,
    observed: &[Axis],
    counts: &Counts,
    cell: &[u32],
) -> Result<(), AllocError>
    ensures { all.now ≡ primed_names names.now asked.sets.x.bits
        → OnOk result (object.new ≡ with_members (levels_members names.now asked observed.now counts.now cell.now) object.old) }
{
    push_own_levels(object, names, &target_of(asked), counts, cell)?;
    push_axes(object, "observed", all, counts, cell, observed)?;
    Ok(())
}

/// The members of the effect, and of the primed names of x.
fn push_effect_sets(object: &mut Object, names: &Names, asked: Asked) -> Result<(), AllocError>
    ensures { OnOk result (object.new ≡ with_members (effect_members names.now asked) object.old) }
{
    let all = primed_names(object.alloc(), names, asked.sets.x)?;
    object.set_at("y", names, asked.sets.y)?;
    object.set_at("x", names, asked.sets.x)?;
    object.set_at("given", names, asked.sets.given)?;
    object.set_at("observed", &all, asked.primes)?;
    Ok(())
}

/// The members of values.
pub fn push_values(
    object: &mut Object,
    names: &Names,
    values: &AmongValues,
) -> Result<(), AllocError>
    ensures { OnOk result (object.new ≡ with_members (values_members names.now values.now) object.old) }
{
    object.word_at("answer", "values")?;
    object.key("exact")?;
    object.boolean(are_exact(&values.values))?;
    push_effect_sets(object, names, values.asked)?;
    push_pinned(object, names, &values.counts, values.pinned)?;
    push_cells_of(object, names, values, &values.values)?;
    Ok(())
}

/// The member of the cell at which the joint effect is less than what of it was observed.
fn push_less(object: &mut Object, names: &Names, none: &NoModel) -> Result<(), AllocError>
    ensures { OnOk result (object.new ≡ with_member (codes "less")
        (object_of (levels_members names.now none.now.asked none.now.observed.items none.now.counts none.now.cell.items)) object.old) }
{
    let all = primed_names(object.alloc(), names, none.asked.sets.x)?;
    let (observed, cell) = (none.observed.as_slice(), none.cell.as_slice());
    object.key("less")?;
    object.begin_object()?;
    push_levels(
        object,
        names,
        &all,
        none.asked,
        observed,
        &none.counts,
        cell,
    )?;
    object.end_object()?;
    Ok(())
}

/// The members where no model has the counts.
pub fn push_no_model(object: &mut Object, names: &Names, none: &NoModel) -> Result<(), AllocError>
    ensures { OnOk result (object.new ≡ with_members (no_model_members names.now none.now) object.old) }
{
    object.word_at("answer", "no model")?;
    push_effect_sets(object, names, none.asked)?;
    push_pinned(object, names, &none.counts, none.pinned)?;
    push_less(object, names, none)?;
    Ok(())
}
