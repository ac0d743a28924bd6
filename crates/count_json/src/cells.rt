//! The levels of a cell.

ghost use Rattle.std.specs.Prelude.{◌≡◌, map, OnOk};
ghost use Rattle.mixed_graph.specs.Vocabulary.{has, members_below};
ghost use Rattle.count_eval.specs.Vocabulary.{cell_of};
ghost use Rattle.answer_json.specs.Vocabulary.{with_value, with_values};
ghost use Rattle.count_json.specs.Cells.{level_json, cell_json};

use answer_json::Object;
use count_answers::{level_text, number_at};
use count_table::Counts;
use mixed_graph::{Names, VSet};
use std::alloc::AllocError;

/// A vertex with its level of that number.
pub fn push_level(
    object: &mut Object,
    names: &Names,
    counts: &Counts,
    v: u8,
    k: u32,
) -> Result<(), AllocError>
    ensures { OnOk result (object.new ≡ with_value (level_json names.now counts.now v k) object.old) }
{
    object.begin_array()?;
    object.vertex(names, v)?;
    object.text(level_text(counts, v, k))?;
    object.end_array()?;
    Ok(())
}

/// Vertices with their levels in a cell, in their order.
pub fn push_levels(
    object: &mut Object,
    names: &Names,
    counts: &Counts,
    vertices: &[u8],
    cell: &[u32],
) -> Result<(), AllocError>
    ensures { OnOk result (object.new ≡ with_values (map (λ v. level_json names.now counts.now v (cell_of cell.now v)) vertices.now) object.old) }
{
    for v in vertices {
        push_level(object, names, counts, *v, number_at(cell, *v))?;
    }
    Ok(())
}

/// The levels of a set's members in a cell, in index order.
#[tactic(auto, using(answer_json::proofs::Arrays::array_written))]
pub fn push_cell(
    object: &mut Object,
    names: &Names,
    counts: &Counts,
    set: VSet,
    cell: &[u32],
) -> Result<(), AllocError>
    ensures { OnOk result (object.new ≡ with_value (cell_json names.now counts.now (cell_of cell.now) (members_below (has set.bits) 64)) object.old) }
{
    let list = set.members(object.alloc())?;
    object.begin_array()?;
    push_levels(object, names, counts, list.as_slice(), cell)?;
    object.end_array()?;
    Ok(())
}
