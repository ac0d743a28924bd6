//! The text of a hedge.

ghost use Rattle.std.specs.Prelude.{◌≡◌, ◌++◌, [], if◌then◌else◌, slice_index, OnOk, IfOk};
ghost use Rattle.identify_text.specs.HedgeLines.{unidentifiable_line, sets_line, heading_text, chooses, choice_line, choice_lines, link_line, link_lines};

use crate::formulas::effect_text;
use answer_text::{push_set, push_vertex};
use hedge::Hedge;
use mixed_graph::{Names, VSet};
use std::alloc::{AllocError, Global};

/// Appends the line of a hedge's sets.
pub fn push_hedge_sets(out: &mut Vec<u8>, names: &Names, h: &Hedge) -> Result<(), AllocError>
    ensures { OnOk result (out.new.items ≡ out.old.items ++ sets_line names.now h.now) }
{
    out.extend_from_slice(b"hedge ")?;
    push_set(out, names, h.big)?;
    out.extend_from_slice(b" over ")?;
    push_set(out, names, h.small)?;
    out.extend_from_slice(b" with roots ")?;
    push_set(out, names, h.roots)?;
    out.push(b'\n')?;
    Ok(())
}

/// The first two lines of a hedge: that the effect isn't identifiable, and the hedge's sets.
///
/// Each line ends with a line feed.
pub fn hedge_heading(
    alloc: Global,
    x: VSet,
    y: VSet,
    h: &Hedge,
    names: &Names,
) -> Result<Vec<u8>, AllocError>
    ensures { IfOk result (λ v. v.items ≡ heading_text names.now x.bits y.bits h.now) }
{
    let mut text = effect_text(alloc, x, y, names)?;
    text.extend_from_slice(b" is not identifiable\n")?;
    push_hedge_sets(&mut text, names, h)?;
    Ok(text)
}

/// Entry i of the choices or links of a hedge; 0 where there is no such entry.
pub fn entry(entries: &[u8; 64], i: usize) -> u8
    ensures { result ≡ slice_index entries.now i }
{
    entries.get(i).copied().unwrap_or(0)
}

/// Appends the line of v's choice, where v is a member of big that has one.
fn push_choice(out: &mut Vec<u8>, names: &Names, h: &Hedge, v: u8) -> Result<(), AllocError>
    ensures { OnOk result (out.new.items ≡ out.old.items ++ (if chooses h.now v then choice_line names.now h.now v else [])) }
{
    let child = entry(&h.choice.next, v as usize);
    if !h.big.has(v) || child >= 64 {
        return Ok(());
    }
    out.extend_from_slice(b"choice ")?;
    push_vertex(out, names, v)?;
    out.extend_from_slice(b" -> ")?;
    push_vertex(out, names, child)?;
    out.push(b'\n')?;
    Ok(())
}

/// Appends the line of each choice of a member of big, in index order.
pub fn push_choices(out: &mut Vec<u8>, names: &Names, h: &Hedge) -> Result<(), AllocError>
    ensures { OnOk result (out.new.items ≡ out.old.items ++ choice_lines names.now h.now) }
{
    for v in 0..64u8 {
        push_choice(out, names, h, v)?;
    }
    Ok(())
}

/// Appends the line of entry i and its partner.
fn push_link(out: &mut Vec<u8>, names: &Names, h: &Hedge, i: usize) -> Result<(), AllocError>
    ensures { OnOk result (out.new.items ≡ out.old.items ++ link_line names.now h.now i) }
{
    out.extend_from_slice(b"link ")?;
    push_vertex(out, names, entry(&h.links.found, i))?;
    out.extend_from_slice(b" <-> ")?;
    push_vertex(out, names, entry(&h.links.partner, i))?;
    out.push(b'\n')?;
    Ok(())
}

/// Appends the line of each entry after the first, in found order.
pub fn push_links(out: &mut Vec<u8>, names: &Names, h: &Hedge) -> Result<(), AllocError>
    ensures { OnOk result (out.new.items ≡ out.old.items ++ link_lines names.now h.now) }
{
    for i in 1..h.links.count as usize {
        push_link(out, names, h, i)?;
    }
    Ok(())
}
