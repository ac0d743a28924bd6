//! The records of a text, one after the other.

ghost use Rattle.std.specs.Prelude.{◌≡◌, ◌≤◌, List, ℕ, [], IfOk, length};
ghost use Rattle.csv.specs.Reading.{is_bom};
ghost use Rattle.count_rows.specs.Records.{Record};
ghost use Rattle.count_rows.specs.Reader.{HasRead, GivesNext, GoesOn};

use crate::fields::Fields;
use crate::lines::{Unsplit, skip_line_ends};
use crate::quoted::take_quoted;
use std::alloc::{AllocError, Global};

/// What one more read gave.
#[derive(Clone, Copy)]
pub enum NextRecord {
    /// Another record; the one behind it is sought from this place on.
    Record(usize),
    /// The text has no other record.
    End,
    /// Memory was refused.
    NoMemory,
}

/// Whether three bytes are a byte order mark.
fn is_mark(a: u8, b: u8, c: u8) -> bool
    ensures { result ≡ is_bom a b c }
{
    a == 0xef && b == 0xbb && c == 0xbf
}

/// Where the records of a text are sought from: behind its byte order mark.
pub fn open(text: &[u8]) -> usize
    ensures { HasRead text.now [] result }
{
    if text.len() < 3 {
        return 0;
    }
    if is_mark(text[0], text[1], text[2]) {
        return 3;
    }
    0
}

/// Takes the record that a text goes on with, and says where other records follow.
fn take_record(alloc: Global, text: &[u8], into: &mut Fields) -> Result<usize, AllocError>
    ensures within { IfOk result (λ next. next ≤ length text.now) }
    ensures fields { IfOk result (GoesOn text.now into.new) }
{
    match into.take_line(text) {
        Ok(next) => Ok(next),
        Err(Unsplit::Quoted) => take_quoted(alloc, text, into),
        Err(Unsplit::NoMemory) => Err(AllocError),
    }
}

/// Reads the next record of a text, from a place on.
pub fn read(alloc: Global, text: &[u8], at: usize, into: &mut Fields) -> NextRecord
    ensures { (before : List Record) → HasRead text.now before at → GivesNext text.now before into.new result }
{
    let from = skip_line_ends(text, at);
    if from >= text.len() {
        return NextRecord::End;
    }
    match take_record(alloc, &text[from..], into) {
        Ok(next) => NextRecord::Record(from + next),
        Err(_) => NextRecord::NoMemory,
    }
}
