//! How sets of vertices, probabilities and paths are printed.
//!
//! `push_set(&mut text, &names, set)` writes `{A,B}`. Sets and probabilities are written in either `Notation`: plain, or LaTeX.
#![tactic(auto)]

ghost use Rattle.std.specs.Prelude.{◌≡◌, ◌++◌, ◌+◌, ◌∷◌, [], ℕ, length, map, OnOk, slice_index, slice_index_or};
ghost use Rattle.mixed_graph.specs.Vocabulary.{has, members_below, name_of};
ghost use Rattle.m_separation.specs.declared.marks.Mark.TheVariants.{Out};
ghost use Rattle.answer_text.specs.Printing.{printed};
ghost use Rattle.answer_text.specs.Notations.{name_in, sign_text};
ghost use Rattle.answer_text.specs.Texts.{comma_in, names_in, names_behind, set_in, set_text, mark_text, steps_text, path_text, member_names, conditions_in, term_in, term_text};

mod latex;
pub mod names;
mod signs;

use crate::names::push_name;
use latex::push_latex_name;
use m_separation::Mark;
use mixed_graph::{MembersLeft, Names, VSet};
pub use signs::{Notation, Sign, push_sign};
use std::alloc::AllocError;

/// Appends the name of vertex v as it is printed. At an error what was appended is open.
pub fn push_vertex(out: &mut Vec<u8>, names: &Names, v: u8) -> Result<(), AllocError>
    ensures { OnOk result (out.new.items ≡ out.old.items ++ printed (name_of names.now v)) }
{
    push_name(out, names.name(v))
}

/// Appends the name of vertex v in a notation.
fn push_vertex_in(
    out: &mut Vec<u8>,
    notation: Notation,
    names: &Names,
    v: u8,
) -> Result<(), AllocError>
    ensures { OnOk result (out.new.items ≡ out.old.items ++ name_in notation (name_of names.now v)) }
{
    match notation {
        Notation::Plain => push_vertex(out, names, v),
        Notation::Latex => push_latex_name(out, names.name(v)),
    }
}

/// Appends a set: its names in index order, with commas between them, in braces.
/// At an error what was appended is open.
pub fn push_set(out: &mut Vec<u8>, names: &Names, set: VSet) -> Result<(), AllocError>
    ensures { OnOk result (out.new.items ≡ out.old.items ++ set_text names.now set.bits) }
{
    push_set_in(out, Notation::Plain, names, set)
}

/// Appends a set in a notation. At an error what was appended is open.
pub fn push_set_in(
    out: &mut Vec<u8>,
    notation: Notation,
    names: &Names,
    set: VSet,
) -> Result<(), AllocError>
    ensures { OnOk result (out.new.items ≡ out.old.items ++ set_in notation names.now set.bits) }
{
    out.push(b'{')?;
    push_members(out, notation, names, set)?;
    out.push(b'}')?;
    Ok(())
}

/// A comma where a member is still to come.
fn separator(notation: Notation, rest: &MembersLeft) -> &'static [u8]
    ensures { result.now ≡ comma_in notation rest.now }
{
    if rest.is_empty() {
        b""
    } else {
        notation.sign(Sign::Comma)
    }
}

/// Appends the names of a set's members, with commas between them.
fn push_members(
    out: &mut Vec<u8>,
    notation: Notation,
    names: &Names,
    set: VSet,
) -> Result<(), AllocError>
    ensures { OnOk result (out.new.items ≡ out.old.items ++ names_in notation (member_names names.now (has set.bits))) }
{
    let mut rest = set.iter();
    'members: while let Some(v) = rest.next() {
        push_vertex_in(out, notation, names, v)?;
        out.extend_from_slice(separator(notation, &rest))?;
    }
    Ok(())
}

/// The mark of a path, with a space on each side.
fn mark_bytes(mark: Mark) -> &'static [u8]
    ensures { result.now ≡ mark_text mark }
{
    match mark {
        Mark::Out => b" -> ",
        Mark::Into => b" <- ",
        Mark::Both => b" <-> ",
    }
}

/// Appends a path of `count` vertices; nothing where it has none. At an error what was appended is open.
pub fn push_path(
    out: &mut Vec<u8>,
    names: &Names,
    vertices: &[u8; 64],
    marks: &[Mark; 64],
    count: u32,
) -> Result<(), AllocError>
    ensures { OnOk result (out.new.items ≡ out.old.items ++ path_text names.now vertices.now marks.now count) }
{
    if count == 0 {
        return Ok(());
    }
    push_vertex(out, names, vertex_at(vertices, 0))?;
    let steps = count as usize - 1;
    for i in 0..steps {
        out.extend_from_slice(mark_bytes(mark_at(marks, i)))?;
        push_vertex(out, names, vertex_at(vertices, i + 1))?;
    }
    Ok(())
}

/// Vertex i of a path, and the first vertex of all where the path has no such place.
fn vertex_at(vertices: &[u8; 64], i: usize) -> u8
    ensures { result ≡ slice_index vertices.now i }
{
    if i < 64 { vertices[i] } else { 0 }
}

/// Mark i of a path, and an arrow where the path has no such place.
fn mark_at(marks: &[Mark; 64], i: usize) -> Mark
    ensures { result ≡ slice_index_or marks.now i Out }
{
    if i < 64 { marks[i] } else { Mark::Out }
}

/// A probability: of a set, under an intervention on another, given a third.
#[derive(Clone, Copy)]
pub struct Term {
    pub of: VSet,
    pub doing: VSet,
    pub given: VSet,
}

/// Appends a probability, as `P(Y|do(X),Z)`; what is empty is left out.
/// At an error what was appended is open.
pub fn push_term(out: &mut Vec<u8>, names: &Names, term: Term) -> Result<(), AllocError>
    ensures { OnOk result (out.new.items ≡ out.old.items ++ term_text names.now (has term.of.bits) (has term.doing.bits) (has term.given.bits)) }
{
    push_term_in(out, Notation::Plain, names, term)
}

/// Appends a probability in a notation. At an error what was appended is open.
pub fn push_term_in(
    out: &mut Vec<u8>,
    notation: Notation,
    names: &Names,
    term: Term,
) -> Result<(), AllocError>
    ensures { OnOk result (out.new.items ≡ out.old.items ++ term_in notation names.now (has term.of.bits) (has term.doing.bits) (has term.given.bits)) }
{
    out.extend_from_slice(b"P(")?;
    push_members(out, notation, names, term.of)?;
    push_conditions(out, notation, names, term.doing, term.given)?;
    out.push(b')')?;
    Ok(())
}

/// Appends what stands behind the bar of a probability, with the bar; nothing where both sets are empty.
fn push_conditions(
    out: &mut Vec<u8>,
    notation: Notation,
    names: &Names,
    doing: VSet,
    given: VSet,
) -> Result<(), AllocError>
    ensures { OnOk result (out.new.items ≡ out.old.items ++ conditions_in notation (member_names names.now (has doing.bits)) (member_names names.now (has given.bits))) }
{
    if doing.is_empty() {
        return push_behind(out, notation, Sign::Bar, names, given);
    }
    push_sign(out, notation, Sign::Bar)?;
    push_sign(out, notation, Sign::Do)?;
    push_members(out, notation, names, doing)?;
    out.push(b')')?;
    push_behind(out, notation, Sign::Comma, names, given)?;
    Ok(())
}

/// Appends a sign and the names of a set's members; nothing where there are none.
fn push_behind(
    out: &mut Vec<u8>,
    notation: Notation,
    sign: Sign,
    names: &Names,
    set: VSet,
) -> Result<(), AllocError>
    ensures { OnOk result (out.new.items ≡ out.old.items ++ names_behind notation sign (member_names names.now (has set.bits))) }
{
    if set.is_empty() {
        return Ok(());
    }
    push_sign(out, notation, sign)?;
    push_members(out, notation, names, set)?;
    Ok(())
}
