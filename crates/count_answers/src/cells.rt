//! The levels of a cell as text.

ghost use Rattle.std.specs.Prelude.{ℕ, ◌≡◌, ◌++◌, not, length, slice_index, OnOk};
ghost use Rattle.std.specs.List.{flat_map, list_all};
ghost use Rattle.mixed_graph.specs.Vocabulary.{has, members_below};
ghost use Rattle.count_eval.specs.Vocabulary.{cell_of};
ghost use Rattle.answer_text.specs.Vocabulary.{comma_before};
ghost use Rattle.count_answers.specs.Lines.{level_text, is_break, escaped, printed_level, assignment, assignments};

use answer_text::push_vertex;
use count_table::Counts;
use mixed_graph::{MembersLeft, Names, VSet};
use std::alloc::AllocError;

/// The level of vertex v with the number k; empty where it has no such level.
pub fn level_text(counts: &Counts, v: u8, k: u32) -> &[u8]
    ensures { result.now ≡ level_text counts.now v k }
{
    if k >= counts.levels(v) {
        return b"";
    }
    counts.level(v, k)
}

/// Whether a byte is a line feed, a carriage return or a quotation mark.
fn is_break(byte: u8) -> bool
    ensures { result ≡ is_break byte }
{
    matches!(byte, b'\n' | b'\r' | b'"')
}

/// Whether a level is printed as its bytes stand.
fn is_unbroken(level: &[u8]) -> bool
    ensures { result ≡ list_all (λ b. not (is_break b)) level.now }
{
    level.iter().all(|b| !is_break(*b))
}

/// Appends a byte as it is printed between quotation marks.
fn push_escaped(out: &mut Vec<u8>, byte: u8) -> Result<(), AllocError>
    ensures { OnOk result (out.new.items ≡ out.old.items ++ escaped byte) }
{
    match byte {
        b'\n' => out.extend_from_slice(b"\\n"),
        b'\r' => out.extend_from_slice(b"\\r"),
        b'"' => out.extend_from_slice(b"\\\""),
        b'\\' => out.extend_from_slice(b"\\\\"),
        other => out.extend_from_slice(&[other]),
    }
}

/// Appends the bytes of a level as they are printed between quotation marks.
fn push_all_escaped(out: &mut Vec<u8>, level: &[u8]) -> Result<(), AllocError>
    ensures { OnOk result (out.new.items ≡ out.old.items ++ flat_map escaped level.now) }
{
    for byte in level {
        push_escaped(out, *byte)?;
    }
    Ok(())
}

/// Appends a level: its bytes, or between quotation marks where it has a line feed, a carriage return or a quotation mark.
pub fn push_level(out: &mut Vec<u8>, level: &[u8]) -> Result<(), AllocError>
    ensures { OnOk result (out.new.items ≡ out.old.items ++ printed_level level.now) }
{
    if is_unbroken(level) {
        return out.extend_from_slice(level);
    }
    out.push(b'"')?;
    push_all_escaped(out, level)?;
    out.push(b'"')?;
    Ok(())
}

/// Appends a vertex with its level of that number, as `Z=level`.
pub fn push_assignment(
    out: &mut Vec<u8>,
    names: &Names,
    counts: &Counts,
    v: u8,
    k: u32,
) -> Result<(), AllocError>
    ensures { OnOk result (out.new.items ≡ out.old.items ++ assignment names.now counts.now (λ u. k) v) }
{
    push_vertex(out, names, v)?;
    out.push(b'=')?;
    push_level(out, level_text(counts, v, k))
}

/// A comma where a member is still to come.
pub fn separator(rest: &MembersLeft) -> &'static [u8]
    ensures { result.now ≡ comma_before rest.now }
{
    if rest.is_empty() { b"" } else { b"," }
}

/// The number of vertex v's level in a cell; 0 where the cell has no such entry.
pub fn number_at(cell: &[u32], v: u8) -> u32
    ensures { result ≡ slice_index cell.now v }
{
    cell.get(v as usize).copied().unwrap_or(0)
}

/// Appends the levels of a set's members in a cell, in index order with commas between them.
pub fn push_assignments(
    out: &mut Vec<u8>,
    names: &Names,
    counts: &Counts,
    set: VSet,
    cell: &[u32],
) -> Result<(), AllocError>
    ensures { OnOk result (out.new.items ≡ out.old.items ++ assignments names.now counts.now (cell_of cell.now) (members_below (has set.bits) 64)) }
{
    let mut rest = set.iter();
    'members: while let Some(v) = rest.next() {
        push_assignment(out, names, counts, v, number_at(cell, v))?;
        out.extend_from_slice(separator(&rest))?;
    }
    Ok(())
}

/// A cell as a slice.
pub fn entries(cell: &[u32; 64]) -> &[u32]
    ensures same { result.now ≡ cell.now }
    ensures long { length result.now ≡ 64 }
{
    cell
}
