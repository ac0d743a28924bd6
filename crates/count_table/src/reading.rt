//! A table read from a text of CSV.

ghost use Rattle.std.specs.Prelude.{ℕ, ◌≡◌, ◌<◌, ◌≤◌, ◌^◌, None, IfOk, IfErr, length, option_map};
ghost use Rattle.mixed_graph.specs.Vocabulary.{has, Within};
ghost use Rattle.count_rows.specs.Vocabulary.{Record, Layout, IsExpectedFault};
ghost use Rattle.count_table.specs.Reading.{IsTableOf, text_fault};

use crate::cells::counts_of;
use crate::codes::codes_of;
use crate::counts::Counts;
use count_rows::{CountFault, Tally, read_rows};
use mixed_graph::{Names, VSet};
use std::alloc::Global;

/// Reads a table of counts from a text of CSV.
///
/// The first record is the header, whose fields name the columns; a text without a record has a header without fields.
/// Without a column of counts each record counts 1. Records with equal used values add. Other columns are ignored. A byte
/// order mark at the start is dropped. The fault is the first one: of the header, name by name, then of the rows in order,
/// then of their sum.
pub fn read_counts(
    alloc: Global,
    text: &[u8],
    names: &Names,
    used: VSet,
    count_column: Option<&[u8]>,
) -> Result<Counts, CountFault>
    requires some { 0 < used.bits }
    requires named { Within (length names.now) (has used.bits) }
    ensures table { IfOk result (IsTableOf text.now names.now used.bits (option_map (λ s. s.now) count_column.entry)) }
    ensures fit { IfOk result (λ c. text_fault text.now names.now used.bits (option_map (λ s. s.now) count_column.entry) ≡ None) }
    ensures fault { IfErr result (IsExpectedFault (text_fault text.now names.now used.bits (option_map (λ s. s.now) count_column.entry))) }
{
    let Ok(vertices) = used.members(alloc) else {
        return Err(CountFault::NoMemory);
    };
    let tally = match read_rows(alloc, text, names, used, count_column) {
        Ok(tally) => tally,
        Err(fault) => return Err(fault),
    };
    match Counts::of_rows(alloc, used, vertices, tally) {
        Ok(counts) => Ok(counts),
        Err(_) => Err(CountFault::NoMemory),
    }
}
