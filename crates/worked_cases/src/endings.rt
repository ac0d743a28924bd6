// One run of a case, and what it gave.

use crate::inputs::{ROOM, number_of, size_of, words_of};
use anyhow::Result;
use causal_cli::run;
use causal_io::{MemoryShelf, MemorySink};
use serde_json::Value;
use std::alloc::Global;

/// What a run gave.
#[derive(Drop)]
pub(crate) struct Ending {
    pub(crate) status: u8,
    pub(crate) out: MemorySink,
    pub(crate) err: MemorySink,
}

/// The most bytes that one write takes.
pub(crate) fn most_of(case: &Value) -> usize {
    size_of(case, "most", ROOM)
}

/// Runs the case over a shelf. `failing` is the number of the write of `out` that fails.
pub(crate) fn ending_of(
    alloc: Global,
    case: &Value,
    shelf: &mut MemoryShelf,
    failing: Option<u64>,
) -> Result<Ending> {
    let words = words_of(alloc, case)?;
    let most = most_of(case).max(1);
    let mut out = MemorySink::with_room(alloc, most, size_of(case, "room", ROOM))?;
    let mut err = MemorySink::with_room(alloc, most, ROOM)?;
    if let Some(write) = failing {
        out.fail(write)?;
    }
    if let Some(write) = number_of(case, "fails_err") {
        err.fail(write)?;
    }
    let status = run(alloc, &words, shelf, &mut out, &mut err);
    Ok(Ending {
        status: status.code,
        out,
        err,
    })
}
