//! The rows of a text.

ghost use Rattle.std.specs.Prelude.{ℕ, ◌≡◌, ◌<◌, ◌++◌, ◌∷◌, [], List, None, All, IfOk, IfErr, MatchResult, length, map, option_map};
ghost use Rattle.std.specs.Option.{option_to_list};
ghost use Rattle.mixed_graph.specs.Vocabulary.{name_of, index_of, has, Within};
ghost use Rattle.count_rows.specs.Records.{Record, records_of, header_of, rows_of, layout_of};
ghost use Rattle.count_rows.specs.Faults.{name_fault, header_fault, rows_fault, empty_fault, or_else, records_fault, used_names, IsExpectedFault};
ghost use Rattle.count_rows.specs.Reader.{HasRead};
ghost use Rattle.count_rows.specs.Tally.{layout_from, HoldsRecords};

use crate::fault::CountFault;
use crate::fields::Fields;
use crate::header::{column, columns, no_column};
use crate::reader::{NextRecord, open, read};
use crate::tally::{Columns, Tally};
use mixed_graph::{Names, VSet};
use std::alloc::Global;

/// Where the records have the used vertices and the counts.
fn layout(
    alloc: Global,
    header: &Fields,
    names: &Names,
    vertices: &[u8],
    count_column: Option<&[u8]>,
) -> Result<Columns, CountFault>
    requires { All (λ v. v < length names.now) vertices.now }
    ensures layout { IfOk result (λ c. layout_from c
        ≡ layout_of header.now (map (name_of names.now) vertices.now) (option_map (λ s. s.now) count_column.entry)) }
    ensures fit { IfOk result (λ c. header_fault header.now (map (name_of names.now) vertices.now ++ option_to_list (option_map (λ s. s.now) count_column.entry)) ≡ None) }
    ensures fault { IfErr result (IsExpectedFault (header_fault header.now (map (name_of names.now) vertices.now ++ option_to_list (option_map (λ s. s.now) count_column.entry)))) }
{
    let places = match columns(alloc, header, names, vertices) {
        Ok(places) => places,
        Err(fault) => return Err(fault),
    };
    let Some(name) = count_column else {
        return Ok(Columns {
            places,
            count_place: None,
        });
    };
    match column(alloc, header, name) {
        Ok(place) => Ok(Columns {
            places,
            count_place: Some(place),
        }),
        Err(fault) => Err(fault),
    }
}

/// The rows, unless the sum of their counts is 0.
fn finished(tally: Tally) -> Result<Tally, CountFault>
    ensures ok { IfOk result (λ t. (t ≡ tally) × (0 < tally.sum)) }
    ensures empty { IfErr result (λ f. (f ≡ CountFault.NoRows) × (tally.sum ≡ 0)) }
{
    if tally.sum == 0 {
        return Err(CountFault::NoRows);
    }
    Ok(tally)
}

/// Reads the rows behind a header of so many fields, from a place on.
fn read_rows_under(
    alloc: Global,
    text: &[u8],
    start: usize,
    width: usize,
    columns: &Columns,
) -> Result<Tally, CountFault>
    ensures { (header : Record) → HasRead text.now (header ∷ []) start → width ≡ length header →
        MatchResult result
        (λ t. HoldsRecords (layout_from columns.now) (rows_of (records_of text.now)) t
        × (or_else (rows_fault (length header) (layout_from columns.now) [] (rows_of (records_of text.now))) (empty_fault (layout_from columns.now) (rows_of (records_of text.now))) ≡ None))
        (IsExpectedFault (or_else (rows_fault (length header) (layout_from columns.now) [] (rows_of (records_of text.now))) (empty_fault (layout_from columns.now) (rows_of (records_of text.now))))) }
{
    let Ok(mut tally) = Tally::empty(alloc, columns.places.len()) else {
        return Err(CountFault::NoMemory);
    };
    let mut row = Fields::none(alloc);
    let mut at = start;
    for number in 1..usize::MAX {
        let next = match read(alloc, text, at, &mut row) {
            NextRecord::Record(next) => next,
            NextRecord::End => return finished(tally),
            NextRecord::NoMemory => return Err(CountFault::NoMemory),
        };
        if row.count() != width {
            return Err(CountFault::NotCsv(number));
        }
        match tally.add(alloc, &row, number, columns) {
            Ok(()) => {}
            Err(fault) => return Err(fault),
        }
        at = next;
    }
    // So many records don't fit in memory.
    Err(CountFault::NoMemory)
}

/// Reads the rows of the vertices.
fn read_rows_of(
    alloc: Global,
    text: &[u8],
    names: &Names,
    vertices: &[u8],
    count_column: Option<&[u8]>,
) -> Result<Tally, CountFault>
    requires some { 0 < length vertices.now }
    requires named { All (λ v. v < length names.now) vertices.now }
    ensures rows { IfOk result (λ t. HoldsRecords (layout_of (header_of (records_of text.now)) (map (name_of names.now) vertices.now) (option_map (λ s. s.now) count_column.entry))
        (rows_of (records_of text.now)) t) }
    ensures fit { IfOk result (λ t. records_fault (records_of text.now) (map (name_of names.now) vertices.now) (option_map (λ s. s.now) count_column.entry) ≡ None) }
    ensures fault { IfErr result (IsExpectedFault (records_fault (records_of text.now) (map (name_of names.now) vertices.now) (option_map (λ s. s.now) count_column.entry))) }
{
    let mut header = Fields::none(alloc);
    let start = match read(alloc, text, open(text), &mut header) {
        NextRecord::Record(next) => next,
        NextRecord::End => return Err(no_column(alloc, names.get(vertices[0]))),
        NextRecord::NoMemory => return Err(CountFault::NoMemory),
    };
    let columns = match layout(alloc, &header, names, vertices, count_column) {
        Ok(columns) => columns,
        Err(fault) => return Err(fault),
    };
    read_rows_under(alloc, text, start, header.count(), &columns)
}

/// Reads the rows of a text of CSV: the levels of the vertices, and each record as a row.
///
/// The first record is the header, whose fields name the columns; a text without a record has a header without fields.
/// Without a column of counts each record counts 1. Other columns are ignored. A byte order mark at the start is dropped.
/// The fault is the first one: of the header, name by name, then of the rows in order, then of their sum.
pub fn read_rows(
    alloc: Global,
    text: &[u8],
    names: &Names,
    used: VSet,
    count_column: Option<&[u8]>,
) -> Result<Tally, CountFault>
    requires some { 0 < used.bits }
    requires named { Within (length names.now) (has used.bits) }
    ensures rows { IfOk result (λ t. HoldsRecords (layout_of (header_of (records_of text.now)) (used_names names.now used.bits) (option_map (λ s. s.now) count_column.entry))
        (rows_of (records_of text.now)) t) }
    ensures fit { IfOk result (λ t. records_fault (records_of text.now) (used_names names.now used.bits) (option_map (λ s. s.now) count_column.entry) ≡ None) }
    ensures fault { IfErr result (IsExpectedFault (records_fault (records_of text.now) (used_names names.now used.bits) (option_map (λ s. s.now) count_column.entry))) }
{
    let Ok(vertices) = used.members(alloc) else {
        return Err(CountFault::NoMemory);
    };
    read_rows_of(alloc, text, names, vertices.as_slice(), count_column)
}
