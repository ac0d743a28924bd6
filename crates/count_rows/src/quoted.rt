//! Reading a record with quotation marks, byte by byte.

ghost use Rattle.std.specs.Prelude.{◌≡◌, ◌≤◌, ◌-◌, true, take, drop, length, IfOk};
ghost use Rattle.std.specs.List.{list_all};
ghost use Rattle.csv.specs.Machine.{in_field, step};
ghost use Rattle.csv.specs.Reading.{default_config};
ghost use Rattle.count_rows.specs.Reader.{GoesOn};
ghost use Rattle.count_rows.specs.Quoted.{state_at, joins, IsStep};

use crate::fields::Fields;
use crate::lines::is_plain;
use std::alloc::{AllocError, Global};

/// Where the reading of a record stands.
#[derive(Clone, Copy)]
pub enum Place {
    /// Before a field.
    StartField,
    /// In a field without quotation marks.
    InField,
    /// Between quotation marks.
    InQuoted,
    /// Behind a quotation mark that ends a field, or stands for one.
    AfterQuote,
}

/// What a byte does.
#[derive(Clone, Copy)]
pub enum Turn {
    /// Nothing but to lead to this place.
    Skip(Place),
    /// It joins the field.
    Copy(Place),
    /// It ends a field.
    EndField,
    /// It ends the record.
    EndRecord,
}

/// What a byte does outside quotation marks.
fn plain_turn(b: u8) -> Turn
    ensures { IsStep (in_field default_config b) result }
{
    match b {
        b',' => Turn::EndField,
        b'\r' | b'\n' => Turn::EndRecord,
        _ => Turn::Copy(Place::InField),
    }
}

/// What a byte does at a place.
fn turn_at(place: Place, b: u8) -> Turn
    ensures { IsStep (step default_config (state_at place) b) result }
{
    let quote = b == b'"';
    match place {
        Place::StartField => if quote {
            Turn::Skip(Place::InQuoted)
        } else {
            plain_turn(b)
        },
        Place::InField => plain_turn(b),
        Place::InQuoted => if quote {
            Turn::Skip(Place::AfterQuote)
        } else {
            Turn::Copy(Place::InQuoted)
        },
        Place::AfterQuote => if quote {
            Turn::Copy(Place::InQuoted)
        } else {
            plain_turn(b)
        },
    }
}

/// Whether a byte only joins the field at a place.
#[inline(always)]
fn joins(place: Place, b: u8) -> bool
    ensures { result ≡ joins place b }
{
    match place {
        Place::StartField | Place::AfterQuote => false,
        Place::InField => is_plain(b),
        Place::InQuoted => b != b'"',
    }
}

/// The first place from `from` on whose byte doesn't only join the field.
fn joined_end(place: Place, text: &[u8], from: usize) -> usize
    requires { from ≤ length text.now }
    ensures from { from ≤ result }
    ensures within { result ≤ length text.now }
    ensures joined { list_all (joins place) (take (result - from) (drop from text.now)) ≡ true }
{
    for at in from..text.len() {
        if !joins(place, text[at]) {
            return at;
        }
    }
    text.len()
}

/// Takes the record that a text goes on with, and says where other records follow.
pub fn take_quoted(alloc: Global, text: &[u8], fields: &mut Fields) -> Result<usize, AllocError>
    ensures within { IfOk result (λ next. next ≤ length text.now) }
    ensures fields { IfOk result (GoesOn text.now fields.new) }
{
    fields.clear();
    let mut field = Vec::with_capacity(alloc, 64)?;
    let mut place = Place::StartField;
    let mut at = 0;
    while at < text.len() {
        let b = text[at];
        match turn_at(place, b) {
            Turn::Skip(next) => place = next,
            Turn::Copy(next) => {
                field.push(b)?;
                place = next;
            }
            Turn::EndField => {
                fields.push(field.as_slice())?;
                field.clear();
                place = Place::StartField;
            }
            Turn::EndRecord => {
                fields.push(field.as_slice())?;
                return Ok(at + 1);
            }
        }
        let end = joined_end(place, text, at + 1);
        field.extend_from_slice(&text[at + 1..end])?;
        at = end;
    }
    fields.push(field.as_slice())?;
    Ok(text.len())
}
