//! The texts of graphs that differ, and of graphs that don't.

ghost use Rattle.std.specs.Prelude.{◌≡◌, ◌++◌, ◌∷◌, [], IfOk, OnOk};
ghost use Rattle.equivalent_command.specs.Lines.{which, braced, pair_text, separation_text, place_text, edge_text, collider_text, separated_text, open_text, connected_text};

use answer_text::{push_path, push_set, push_vertex};
use m_separation::OpenPath;
use markov_equivalence::{Difference, Side};
use mixed_graph::Names;
use replies::push_query;
use std::alloc::{AllocError, Global};
use targets::Sets;

/// The text of an edge that one graph has alone.
pub fn edge_text(alloc: Global, names: &Names, d: Difference) -> Result<Vec<u8>, AllocError>
    ensures { IfOk result (λ v. v.items ≡ edge_text names.now d) }
{
    let mut text = Vec::from_slice(alloc, b"not equivalent: edge ")?;
    push_vertex(&mut text, names, d.a)?;
    text.push(b',')?;
    push_vertex(&mut text, names, d.b)?;
    push_place(&mut text, d)?;
    push_separation(&mut text, names, d)?;
    Ok(text)
}

/// The text of an unshielded collider m that one graph has alone.
pub fn collider_text(
    alloc: Global,
    names: &Names,
    d: Difference,
    m: u8,
) -> Result<Vec<u8>, AllocError>
    ensures { IfOk result (λ v. v.items ≡ collider_text names.now d m) }
{
    let mut text = Vec::from_slice(alloc, b"not equivalent: collider ")?;
    push_vertex(&mut text, names, d.a)?;
    text.push(b',')?;
    push_vertex(&mut text, names, m)?;
    text.push(b',')?;
    push_vertex(&mut text, names, d.b)?;
    push_place(&mut text, d)?;
    push_separation(&mut text, names, d)?;
    Ok(text)
}

/// The first of the two graphs, or the second, in a word.
pub fn word_of(side: Side) -> &'static str
    ensures { result.now ≡ which side }
{
    match side {
        Side::First => "first",
        Side::Second => "second",
    }
}

/// The same as bytes.
pub fn which(side: Side) -> &'static [u8]
    ensures { result.now ≡ which side }
{
    word_of(side).as_bytes()
}

/// Appends the graph that has the edge or the collider: the one in which the separation doesn't hold.
fn push_place(out: &mut Vec<u8>, d: Difference) -> Result<(), AllocError>
    ensures { OnOk result (out.new.items ≡ out.old.items ++ place_text d) }
{
    out.extend_from_slice(b" in the ")?;
    out.extend_from_slice(which(d.holds_in.other()))?;
    out.push(b'\n')?;
    Ok(())
}

/// Appends a vertex between braces.
fn push_braced(out: &mut Vec<u8>, names: &Names, v: u8) -> Result<(), AllocError>
    ensures { OnOk result (out.new.items ≡ out.old.items ++ braced names.now v) }
{
    out.push(b'{')?;
    push_vertex(out, names, v)?;
    out.push(b'}')?;
    Ok(())
}

/// Appends `{A} from {B} given {C}`.
fn push_pair(out: &mut Vec<u8>, names: &Names, d: Difference) -> Result<(), AllocError>
    ensures { OnOk result (out.new.items ≡ out.old.items ++ pair_text names.now d) }
{
    push_braced(out, names, d.a)?;
    out.extend_from_slice(b" from ")?;
    push_braced(out, names, d.b)?;
    out.extend_from_slice(b" given ")?;
    push_set(out, names, d.given)?;
    Ok(())
}

/// Appends the line of the separation.
fn push_separation(out: &mut Vec<u8>, names: &Names, d: Difference) -> Result<(), AllocError>
    ensures { OnOk result (out.new.items ≡ out.old.items ++ separation_text names.now d) }
{
    out.extend_from_slice(b"separated in the ")?;
    out.extend_from_slice(which(d.holds_in))?;
    out.extend_from_slice(b" alone: ")?;
    push_pair(out, names, d)?;
    out.push(b'\n')?;
    Ok(())
}

/// The text of equivalent graphs in which sets are separated.
pub fn separated_text(alloc: Global, names: &Names, sets: Sets) -> Result<Vec<u8>, AllocError>
    ensures { IfOk result (λ v. v.items ≡ separated_text names.now sets) }
{
    let mut text = Vec::from_slice(alloc, b"equivalent\n")?;
    text.extend_from_slice(b"separated in both: ")?;
    push_query(&mut text, names, sets)?;
    text.push(b'\n')?;
    Ok(text)
}

/// The text of equivalent graphs with an open path of each.
pub fn connected_text(
    alloc: Global,
    names: &Names,
    first: &OpenPath,
    second: &OpenPath,
) -> Result<Vec<u8>, AllocError>
    ensures { IfOk result (λ v. v.items ≡ connected_text names.now first.now second.now) }
{
    let mut text = Vec::from_slice(alloc, b"equivalent\n")?;
    push_open_in(&mut text, Side::First, names, first)?;
    push_open_in(&mut text, Side::Second, names, second)?;
    Ok(text)
}

/// Appends an open path of the first graph or of the second.
fn push_open_in(
    out: &mut Vec<u8>,
    side: Side,
    names: &Names,
    path: &OpenPath,
) -> Result<(), AllocError>
    ensures { OnOk result (out.new.items ≡ out.old.items ++ open_text side names.now path.now) }
{
    out.extend_from_slice(b"open in the ")?;
    out.extend_from_slice(which(side))?;
    out.extend_from_slice(b": ")?;
    push_path(out, names, &path.vertices, &path.marks, path.count)?;
    out.push(b'\n')?;
    Ok(())
}
