//! The lines of `instruments`.

ghost use Rattle.std.specs.Prelude.{◌≡◌, ◌++◌, IfOk, OnOk};
ghost use Rattle.instruments_command.specs.Lines.{strata_line, strata_lines, more_line, candidate_lines, listing_text};

use answer_text::{push_set, push_vertex};
use instrument_sets::Candidate;
use mixed_graph::{Names, VSet};
use std::alloc::{AllocError, Global};

/// Appends a vertex and one of its sets of strata: `Z given {W}`.
fn push_strata(out: &mut Vec<u8>, names: &Names, vertex: u8, strata: VSet) -> Result<(), AllocError>
    ensures { OnOk result (out.new.items ≡ out.old.items ++ strata_line names.now vertex strata.bits) }
{
    push_vertex(out, names, vertex)?;
    out.extend_from_slice(b" given ")?;
    push_set(out, names, strata)?;
    out.push(b'\n')?;
    Ok(())
}

/// Appends a line for each set of strata.
fn push_each(out: &mut Vec<u8>, names: &Names, vertex: u8, sets: &[VSet]) -> Result<(), AllocError>
    ensures { OnOk result (out.new.items ≡ out.old.items ++ strata_lines names.now vertex sets.now) }
{
    for strata in sets {
        push_strata(out, names, vertex, *strata)?;
    }
    Ok(())
}

/// Appends the line `more of Z`, where there are more sets.
fn push_more(out: &mut Vec<u8>, names: &Names, vertex: u8, more: bool) -> Result<(), AllocError>
    ensures { OnOk result (out.new.items ≡ out.old.items ++ more_line names.now vertex more) }
{
    if more {
        out.extend_from_slice(b"more of ")?;
        push_vertex(out, names, vertex)?;
        out.push(b'\n')?;
    }
    Ok(())
}

/// Appends the lines of a vertex.
fn push_candidate(out: &mut Vec<u8>, names: &Names, c: &Candidate) -> Result<(), AllocError>
    ensures { OnOk result (out.new.items ≡ out.old.items ++ candidate_lines names.now c.now) }
{
    push_each(out, names, c.vertex, c.strata.sets.as_slice())?;
    push_more(out, names, c.vertex, c.strata.more)
}

/// Appends the lines of all of them.
fn push_all(out: &mut Vec<u8>, names: &Names, list: &[Candidate]) -> Result<(), AllocError>
    ensures { OnOk result (out.new.items ≡ out.old.items ++ listing_text names.now list.now) }
{
    for c in list {
        push_candidate(out, names, c)?;
    }
    Ok(())
}

/// The text of a listing.
pub fn listing_text(alloc: Global, names: &Names, list: &[Candidate]) -> Result<Vec<u8>, AllocError>
    ensures { IfOk result (λ v. v.items ≡ listing_text names.now list.now) }
{
    let mut text = Vec::new(alloc);
    push_all(&mut text, names, list)?;
    Ok(text)
}
