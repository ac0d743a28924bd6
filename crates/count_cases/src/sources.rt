//! Where a case's counts come from.

ghost use Rattle.std.specs.Prelude.{◌≡◌, IsTrue};
ghost use Rattle.mixed_graph.specs.Vocabulary.{has};
ghost use Rattle.count_table.specs.Vocabulary.{HasLevels};

use case_rows::{list, text};
use count_table::{CountFault, Counts, read_counts};
use mixed_graph::{Names, VSet};
use serde_json::Value;
use std::alloc::Global;

/// The table of a case: the one that it names, or its own.
pub(crate) fn source_of<'a>(root: &'a Value, case: &'a Value) -> &'a Value {
    match root.get("tables") {
        Some(tables) => match tables.get(text(case, "table")) {
            Some(table) => table,
            None => case,
        },
        None => case,
    }
}

/// The vertex of the name that a value is.
fn one_of(names: &Names, value: &Value) -> Option<VSet> {
    match names.index(value.as_str()?.as_bytes()) {
        Some(v) => Some(VSet::one(v)),
        None => None,
    }
}

/// The vertices of these names.
pub(crate) fn set_of(names: &Names, list: &[Value]) -> Option<VSet> {
    let mut set = VSet::empty();
    for value in list {
        set = set.union(one_of(names, value)?);
    }
    Some(set)
}

/// The column of counts, if there is one.
pub(crate) fn column_of(source: &Value) -> Option<&[u8]> {
    let name = text(source, "count");
    if name.is_empty() {
        return None;
    }
    Some(name.as_bytes())
}

/// What reading a table gives.
pub(crate) fn read(
    alloc: Global,
    names: &Names,
    source: &Value,
) -> Option<Result<Counts, CountFault>> {
    let unused = set_of(names, list(source, "unused"))?;
    let count = names.count();
    if count > 64 {
        return None;
    }
    let used = VSet::below(count).difference(unused);
    if used.is_empty() {
        return None;
    }
    let text = text(source, "text").as_bytes();
    Some(read_counts(alloc, text, names, used, column_of(source)))
}

/// Whether an assignment has levels of the vertices of a set.
pub(crate) fn has_levels(counts: &Counts, of: VSet, at: &[u32]) -> bool
    ensures { IsTrue result → HasLevels counts.now (has of.bits) at.now }
{
    for v in 0..64 {
        if of.has(v) && (v as usize >= at.len() || at[v as usize] >= counts.levels(v)) {
            return false;
        }
    }
    true
}
