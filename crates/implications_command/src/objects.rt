//! The members of the objects of `implications`.

ghost use Rattle.std.specs.Prelude.{◌≡◌, [], map, OnOk, codes};
ghost use Rattle.std.specs.Fmt.{signed_decimal};
ghost use Rattle.json.specs.Json.{string};
ghost use Rattle.count_eval.specs.Vocabulary.{cell_of};
ghost use Rattle.answer_json.specs.Vocabulary.{with_value, with_values, with_member, with_members, array_of};
ghost use Rattle.count_json.specs.Vocabulary.{level_json, cell_json};
ghost use Rattle.implications_command.specs.Lines.{vertices_of};
ghost use Rattle.implications_command.specs.Objects.{listed_members, pair_members, pair_json, difference_members, measured_json, broken_members, differences_members};

use crate::differences::{Measured, first_broken};
use answer_json::Object;
use count_answers::{entries, number_at};
use count_json::{push_level, push_levels};
use count_table::Counts;
use implications::Implication;
use implied_differences::Difference;
use mixed_graph::Names;
use std::alloc::AllocError;

/// That no set separates any two vertices.
pub fn push_none(object: &mut Object) -> Result<(), AllocError>
    ensures { OnOk result (object.new ≡ with_members (listed_members (codes "none") []) object.old) }
{
    object.word_at("answer", "none")?;
    object.key("pairs")?;
    object.begin_array()?;
    object.end_array()
}

/// The members of a pair: its two vertices, and what is given.
fn push_members(object: &mut Object, names: &Names, i: &Implication) -> Result<(), AllocError>
    ensures { OnOk result (object.new ≡ with_members (pair_members names.now i.now) object.old) }
{
    object.vertex_at("x", names, i.a)?;
    object.vertex_at("y", names, i.b)?;
    object.set_at("given", names, i.given)?;
    Ok(())
}

/// A pair.
fn push_pair(object: &mut Object, names: &Names, i: &Implication) -> Result<(), AllocError>
    ensures { OnOk result (object.new ≡ with_value (pair_json names.now i.now) object.old) }
{
    object.begin_object()?;
    push_members(object, names, i)?;
    object.end_object()?;
    Ok(())
}

/// Pairs, in their order.
fn push_list(object: &mut Object, names: &Names, list: &[Implication]) -> Result<(), AllocError>
    ensures { OnOk result (object.new ≡ with_values (map (pair_json names.now) list.now) object.old) }
{
    for i in list {
        push_pair(object, names, i)?;
    }
    Ok(())
}

/// The member of the pairs.
#[tactic(auto, using(answer_json::proofs::Arrays::array_written))]
fn pairs_at(object: &mut Object, names: &Names, list: &[Implication]) -> Result<(), AllocError>
    ensures { OnOk result (object.new ≡ with_member (codes "pairs") (array_of (map (pair_json names.now) list.now)) object.old) }
{
    object.key("pairs")?;
    object.begin_array()?;
    push_list(object, names, list)?;
    object.end_array()?;
    Ok(())
}

/// The members of pairs.
pub fn push_pairs(
    object: &mut Object,
    names: &Names,
    list: &[Implication],
) -> Result<(), AllocError>
    ensures { OnOk result (object.new ≡ with_members (listed_members (codes "implications") (map (pair_json names.now) list.now)) object.old) }
{
    object.word_at("answer", "implications")?;
    pairs_at(object, names, list)
}

/// A difference, as a text of its digits.
fn push_value(object: &mut Object, value: i128) -> Result<(), AllocError>
    ensures { OnOk result (object.new ≡ with_value (string (signed_decimal value)) object.old) }
{
    let text = format!(in object.alloc(); "{value}")?;
    object.string(text.as_str())
}

/// The levels of a pair and of what is given in a cell, in their order.
fn push_all_levels(
    object: &mut Object,
    names: &Names,
    counts: &Counts,
    i: &Implication,
    cell: &[u32],
) -> Result<(), AllocError>
    ensures { OnOk result (object.new ≡ with_values (map (λ v. level_json names.now counts.now v (cell_of cell.now v)) (vertices_of i.now)) object.old) }
{
    let given = i.given.members(object.alloc())?;
    push_level(object, names, counts, i.a, number_at(cell, i.a))?;
    push_level(object, names, counts, i.b, number_at(cell, i.b))?;
    push_levels(object, names, counts, given.as_slice(), cell)?;
    Ok(())
}

/// A cell: the levels of a pair and of what is given.
fn push_cell(
    object: &mut Object,
    names: &Names,
    counts: &Counts,
    i: &Implication,
    cell: &[u32],
) -> Result<(), AllocError>
    ensures { OnOk result (object.new ≡ with_value (cell_json names.now counts.now (cell_of cell.now) (vertices_of i.now)) object.old) }
{
    object.begin_array()?;
    push_all_levels(object, names, counts, i, cell)?;
    object.end_array()?;
    Ok(())
}

/// The members of a difference: its value, and the cell where it is.
fn push_difference(
    object: &mut Object,
    names: &Names,
    counts: &Counts,
    i: &Implication,
    d: Difference,
) -> Result<(), AllocError>
    ensures { OnOk result (object.new ≡ with_members (difference_members names.now counts.now i.now d) object.old) }
{
    object.key("difference")?;
    push_value(object, d.value)?;
    object.key("cell")?;
    push_cell(object, names, counts, i, entries(&d.cell))?;
    Ok(())
}

/// A pair with its difference.
fn push_measured(
    object: &mut Object,
    names: &Names,
    counts: &Counts,
    m: &Measured,
) -> Result<(), AllocError>
    ensures { OnOk result (object.new ≡ with_value (measured_json names.now counts.now m.now) object.old) }
{
    object.begin_object()?;
    push_members(object, names, &m.pair)?;
    push_difference(object, names, counts, &m.pair, m.difference)?;
    object.end_object()?;
    Ok(())
}

/// Pairs with their differences, in their order.
fn push_all(
    object: &mut Object,
    names: &Names,
    counts: &Counts,
    measured: &[Measured],
) -> Result<(), AllocError>
    ensures { OnOk result (object.new ≡ with_values (map (measured_json names.now counts.now) measured.now) object.old) }
{
    for m in measured {
        push_measured(object, names, counts, m)?;
    }
    Ok(())
}

/// The member of the pairs with their differences.
#[tactic(auto, using(answer_json::proofs::Arrays::array_written))]
fn differences_at(
    object: &mut Object,
    names: &Names,
    counts: &Counts,
    measured: &[Measured],
) -> Result<(), AllocError>
    ensures { OnOk result (object.new ≡ with_member (codes "pairs") (array_of (map (measured_json names.now counts.now) measured.now)) object.old) }
{
    object.key("pairs")?;
    object.begin_array()?;
    push_all(object, names, counts, measured)?;
    object.end_array()?;
    Ok(())
}

/// The member of the pair by which no model has the counts, where there is one. The only error is want of memory.
pub fn push_broken(
    object: &mut Object,
    names: &Names,
    broken: Option<Implication>,
) -> Result<(), AllocError>
    ensures { OnOk result (object.new ≡ with_members (broken_members names.now broken) object.old) }
{
    match broken {
        Some(pair) => {
            object.key("no_model")?;
            push_pair(object, names, &pair)
        }
        None => Ok(()),
    }
}

/// The members of pairs with their differences.
pub fn push_differences(
    object: &mut Object,
    names: &Names,
    counts: &Counts,
    measured: &[Measured],
) -> Result<(), AllocError>
    ensures { OnOk result (object.new ≡ with_members (differences_members names.now counts.now measured.now) object.old) }
{
    object.word_at("answer", "implications")?;
    differences_at(object, names, counts, measured)?;
    push_broken(object, names, first_broken(measured))
}
