//! The fields of a record.

ghost use Rattle.std.specs.Prelude.{◌≡◌, ◌<◌, ◌≤◌, ◌++◌, ◌∷◌, [], List, ℕ, IfOk, OnOk, length, slice_index};
ghost use Rattle.count_rows.specs.Fields.{cut_from, start_of, AreEnds};
ghost use Rattle.count_rows.specs.Records.{field_in};
ghost use Rattle.count_rows.specs.Reader.{GoesOn};

use crate::lines::{Unsplit, behind, split};
use std::alloc::{AllocError, Global};
use std::marker::Model;

/// The fields of a record: their bytes with one byte behind each field, and the place where each field ends.
///
/// Contracts see the list of the fields.
#[derive(Drop)]
pub struct Fields {
    bytes: Vec<u8>,
    ends: Vec<usize>,
}

impl Model for Fields {
    ghost use Rattle.std.specs.Prelude.{List, ℕ, length};
    ghost use Rattle.count_rows.specs.Fields.{cut_from, AreEnds};

    ghost Value = { List (List ℕ) };

    ghost view = { λ s. cut_from 0 s.ends.items s.bytes.items };

    ghost invariant = { λ s. AreEnds 0 s.ends.items (length s.bytes.items) };
}

/// Where a field begins.
#[inline(always)]
fn start(ends: &[usize], place: usize) -> usize
    requires there { place < length ends.now }
    requires before { start_of 0 ends.now place ≤ slice_index ends.now place }
    ensures { result ≡ start_of 0 ends.now place }
{
    if place == 0 { 0 } else { ends[place - 1] + 1 }
}

/// The field in a column that is there.
#[inline(always)]
fn between<'a>(bytes: &'a [u8], ends: &[usize], place: usize) -> &'a [u8]
    requires there { place < length ends.now }
    requires ordered { AreEnds 0 ends.now (length bytes.now) }
    ensures { result.now ≡ field_in place (cut_from 0 ends.now bytes.now) }
{
    let from = start(ends, place);
    let to = ends[place];
    &bytes[from..to]
}

/// Takes all fields away.
fn take_away(bytes: &mut Vec<u8>, ends: &mut Vec<usize>)
    ensures ordered { AreEnds 0 ends.new.items (length bytes.new.items) }
    ensures fields { cut_from 0 ends.new.items bytes.new.items ≡ [] }
{
    bytes.clear();
    ends.clear();
}

/// Puts a field behind the others.
fn push_field(bytes: &mut Vec<u8>, ends: &mut Vec<usize>, field: &[u8]) -> Result<(), AllocError>
    requires { AreEnds 0 ends.old.items (length bytes.old.items) }
    ensures ordered { OnOk result (AreEnds 0 ends.new.items (length bytes.new.items)) }
    ensures fields { OnOk result (cut_from 0 ends.new.items bytes.new.items ≡ cut_from 0 ends.old.items bytes.old.items ++ field.now ∷ []) }
{
    bytes.extend_from_slice(field)?;
    let end = bytes.len();
    bytes.push(b',')?;
    ends.push(end)?;
    Ok(())
}

/// Takes the fields of the record that a text goes on with, where it has no quotation mark, and says where other records follow.
fn take_fields(text: &[u8], bytes: &mut Vec<u8>, ends: &mut Vec<usize>) -> Result<usize, Unsplit>
    ensures ordered { OnOk result (AreEnds 0 ends.new.items (length bytes.new.items)) }
    ensures within { IfOk result (λ next. next ≤ length text.now) }
    ensures fields { IfOk result (λ next. GoesOn text.now (cut_from 0 ends.new.items bytes.new.items) next) }
{
    bytes.clear();
    let end = match split(text, ends) {
        Ok(end) => end,
        Err(fault) => return Err(fault),
    };
    if bytes.extend_from_slice(&text[..end]).is_err() {
        return Err(Unsplit::NoMemory);
    }
    if bytes.push(b'\n').is_err() {
        return Err(Unsplit::NoMemory);
    }
    Ok(behind(text, end))
}

impl Fields {
    /// No field.
    pub fn none(alloc: Global) -> Fields
        ensures { result ≡ [] }
    {
        Fields {
            bytes: Vec::new(alloc),
            ends: Vec::new(alloc),
        }
    }

    /// The number of fields.
    pub fn count(&self) -> usize
        ensures { result ≡ length self.now }
    {
        self.ends.len()
    }

    /// The field in a column; empty where the record is too short.
    #[inline(always)]
    pub fn get(&self, place: usize) -> &[u8]
        ensures { result.now ≡ field_in place self.now }
    {
        if place >= self.ends.len() {
            return &[];
        }
        between(self.bytes.as_slice(), self.ends.as_slice(), place)
    }

    /// Takes all fields away.
    pub fn clear(&mut self)
        ensures { self.new ≡ [] }
    {
        take_away(&mut self.bytes, &mut self.ends);
    }

    /// Adds a field. Without memory none is left.
    pub fn push(&mut self, field: &[u8]) -> Result<(), AllocError>
        ensures { OnOk result (self.new ≡ self.old ++ field.now ∷ []) }
    {
        if push_field(&mut self.bytes, &mut self.ends, field).is_err() {
            take_away(&mut self.bytes, &mut self.ends);
            return Err(AllocError);
        }
        Ok(())
    }

    /// Takes the record that a text goes on with, where it has no quotation mark, and says where other records follow.
    pub fn take_line(&mut self, text: &[u8]) -> Result<usize, Unsplit>
        ensures within { IfOk result (λ next. next ≤ length text.now) }
        ensures fields { IfOk result (GoesOn text.now self.new) }
    {
        match take_fields(text, &mut self.bytes, &mut self.ends) {
            Ok(next) => Ok(next),
            Err(fault) => {
                take_away(&mut self.bytes, &mut self.ends);
                Err(fault)
            }
        }
    }
}
