//! The members of the objects of graphs that differ, and of graphs that don't.

ghost use Rattle.std.specs.Prelude.{◌≡◌, OnOk, codes};
ghost use Rattle.answer_json.specs.Vocabulary.{with_member, with_members};
ghost use Rattle.equivalent_command.specs.Objects.{asked_members, paths_members, difference_json, separation_json, different_members};

use crate::texts::word_of;
use answer_json::Object;
use m_separation::OpenPath;
use markov_equivalence::{Difference, Side};
use mixed_graph::Names;
use std::alloc::AllocError;
use targets::Sets;

/// The members of graphs that don't differ, with the sets that are asked about, and whether these are separated.
pub fn push_asked(
    object: &mut Object,
    names: &Names,
    sets: Sets,
    are_separated: bool,
) -> Result<(), AllocError>
    ensures { OnOk result (object.new ≡ with_members (asked_members names.now sets are_separated) object.old) }
{
    object.word_at("answer", "equivalent")?;
    object.query(names, sets.x, sets.y, sets.given)?;
    object.key("separated")?;
    object.boolean(are_separated)
}

/// The members of an open path of each graph.
pub fn push_paths(
    object: &mut Object,
    names: &Names,
    first: &OpenPath,
    second: &OpenPath,
) -> Result<(), AllocError>
    ensures { OnOk result (object.new ≡ with_members (paths_members names.now first.now second.now) object.old) }
{
    object.path_at("first", names, first)?;
    object.path_at("second", names, second)?;
    Ok(())
}

/// The member of what one graph has alone.
fn push_difference(
    object: &mut Object,
    kind: &str,
    names: &Names,
    vertices: &[u8],
    side: Side,
) -> Result<(), AllocError>
    ensures { OnOk result (object.new ≡ with_member (codes "difference") (difference_json kind.now names.now vertices.now side) object.old) }
{
    object.key("difference")?;
    object.begin_object()?;
    object.word_at("kind", kind)?;
    object.vertices_at("vertices", names, vertices)?;
    object.word_at("in", word_of(side))?;
    object.end_object()?;
    Ok(())
}

/// The member of the separation that holds in one graph alone.
fn push_separation(object: &mut Object, names: &Names, d: Difference) -> Result<(), AllocError>
    ensures { OnOk result (object.new ≡ with_member (codes "separation") (separation_json names.now d) object.old) }
{
    object.key("separation")?;
    object.begin_object()?;
    object.vertices_at("x", names, &[d.a])?;
    object.vertices_at("y", names, &[d.b])?;
    object.set_at("given", names, d.given)?;
    object.end_object()?;
    Ok(())
}

/// The members of graphs that differ: what one has alone, and a separation that holds in the other alone.
pub fn push_different(
    object: &mut Object,
    kind: &str,
    names: &Names,
    vertices: &[u8],
    d: Difference,
) -> Result<(), AllocError>
    ensures { OnOk result (object.new ≡ with_members (different_members kind.now names.now vertices.now d) object.old) }
{
    object.word_at("answer", "not equivalent")?;
    push_difference(object, kind, names, vertices, d.holds_in.other())?;
    object.word_at("separated_in", word_of(d.holds_in))?;
    push_separation(object, names, d)
}
