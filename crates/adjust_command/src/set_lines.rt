//! The lines of a listing. Each name is asked once whether it is printed bare, and not in each set again.

ghost use Rattle.std.specs.Prelude.{◌≡◌, ◌++◌, ◌<◌, IfOk, OnOk};
ghost use Rattle.mixed_graph.specs.Vocabulary.{has, name_of};
ghost use Rattle.answer_text.specs.Vocabulary.{printed, comma_before, names_in, member_names, set_text};
ghost use Rattle.answer_text.specs.declared.signs.Notation.TheVariants as notations;
ghost use Rattle.adjust_command.specs.Lines.{set_line, set_lines, listing_text};
ghost use Rattle.adjust_command.specs.Bare.{AreBare};

use answer_text::names::is_plain;
use answer_text::push_vertex;
use mixed_graph::{MembersLeft, Names, VSet};
use std::alloc::{AllocError, Global};

/// Vertices whose names are printed bare.
#[derive(Drop)]
struct BareNames<'a> {
    names: &'a Names,
    bare: VSet,
    ghost are_bare: { AreBare names.now (has bare.bits) },
}

impl<'a> BareNames<'a> {
    /// None of them.
    fn none(names: &'a Names) -> Self
        ensures { result.names.now ≡ names.now }
    {
        BareNames {
            names,
            bare: VSet::empty(),
        }
    }

    /// With v, where its name is printed bare.
    fn with(self, v: u8) -> Self
        requires { v < 64 }
        ensures { result.names.now ≡ self.entry.names.now }
    {
        if !is_plain(self.names.name(v)) {
            return self;
        }
        BareNames {
            names: self.names,
            bare: self.bare.union(VSet::one(v)),
        }
    }

    /// All of them.
    fn of(names: &'a Names) -> Self
        ensures { result.names.now ≡ names.now }
    {
        let mut known = BareNames::none(names);
        for v in 0..names.count() as u8 {
            known = known.with(v);
        }
        known
    }
}

/// Appends the name of a vertex as it is printed.
fn push_known(out: &mut Vec<u8>, known: &BareNames<'_>, v: u8) -> Result<(), AllocError>
    ensures { OnOk result (out.new.items ≡ out.old.items ++ printed (name_of known.now.names.now v)) }
{
    if known.bare.has(v) {
        out.extend_from_slice(known.names.name(v))?;
        return Ok(());
    }
    push_vertex(out, known.names, v)
}

/// A comma where a member is still to come.
fn comma(rest: &MembersLeft) -> &'static [u8]
    ensures { result.now ≡ comma_before rest.now }
{
    if rest.is_empty() { b"" } else { b"," }
}

/// Appends the names of a set's members, with commas between them.
fn push_members(out: &mut Vec<u8>, known: &BareNames<'_>, set: VSet) -> Result<(), AllocError>
    ensures { OnOk result (out.new.items ≡ out.old.items ++ names_in notations.Plain (member_names known.now.names.now (has set.bits))) }
{
    let mut rest = set.iter();
    'members: while let Some(v) = rest.next() {
        push_known(out, known, v)?;
        out.extend_from_slice(comma(&rest))?;
    }
    Ok(())
}

/// Appends a set.
fn push_known_set(out: &mut Vec<u8>, known: &BareNames<'_>, set: VSet) -> Result<(), AllocError>
    ensures { OnOk result (out.new.items ≡ out.old.items ++ set_text known.now.names.now set.bits) }
{
    out.push(b'{')?;
    push_members(out, known, set)?;
    out.push(b'}')?;
    Ok(())
}

/// Appends a set and a line feed.
fn push_known_line(out: &mut Vec<u8>, known: &BareNames<'_>, set: VSet) -> Result<(), AllocError>
    ensures { OnOk result (out.new.items ≡ out.old.items ++ set_line known.now.names.now set.bits) }
{
    push_known_set(out, known, set)?;
    out.push(b'\n')?;
    Ok(())
}

/// Appends each set on a line of its own.
fn push_sets(out: &mut Vec<u8>, names: &Names, sets: &[VSet]) -> Result<(), AllocError>
    ensures { OnOk result (out.new.items ≡ out.old.items ++ set_lines names.now sets.now) }
{
    let known = BareNames::of(names);
    for set in sets {
        push_known_line(out, &known, *set)?;
    }
    Ok(())
}

/// The text of a listing.
pub fn listing_text(
    alloc: Global,
    names: &Names,
    sets: &[VSet],
    more: bool,
) -> Result<Vec<u8>, AllocError>
    ensures { IfOk result (λ v. v.items ≡ listing_text names.now sets.now more) }
{
    let mut text = Vec::new(alloc);
    push_sets(&mut text, names, sets)?;
    if more {
        text.extend_from_slice(b"more\n")?;
    }
    Ok(text)
}
