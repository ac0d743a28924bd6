// Cases that are run again and again: over each front of a file, and with each write failing.

use crate::endings::{Ending, ending_of, most_of};
use crate::inputs::shelf_of;
use anyhow::Result;
use serde_json::Value;
use std::alloc::Global;
use std::io::Write;

/// Fronts of a file, from one length on, whose runs end with one status, all with something on `out` or all with nothing.
#[derive(Drop)]
struct Alike {
    first: usize,
    status: u8,
    is_silent: bool,
    line: Vec<u8>,
    has_one_line: bool,
}

impl Alike {
    /// The front of this length alone.
    fn begin(alloc: Global, first: usize, ending: &Ending) -> Result<Alike> {
        Ok(Alike {
            first,
            status: ending.status,
            is_silent: ending.out.bytes().is_empty(),
            line: Vec::from_slice(alloc, ending.err.bytes())?,
            has_one_line: true,
        })
    }

    /// Whether a run ends like these.
    fn holds(&self, ending: &Ending) -> bool {
        self.status == ending.status && self.is_silent == ending.out.bytes().is_empty()
    }

    /// Notes what a run has on `err`.
    fn join(&mut self, ending: &Ending) {
        if self.line.as_slice() != ending.err.bytes() {
            self.has_one_line = false;
        }
    }

    /// Prints the lengths up to the last, the status, and what stands on `err` where it is the same for all.
    fn print<W: Write>(&self, alloc: Global, last: usize, print: &mut W) -> Result<()> {
        let first = self.first;
        let status = self.status;
        let on_out = if self.is_silent {
            "nothing"
        } else {
            "something"
        };
        let line = format!(in alloc;
            "-- cut to {first} .. {last} bytes: {status}, {on_out} on out\n"
        )?;
        print.write_all(line.as_bytes())?;
        if self.has_one_line {
            print.write_all(self.line.as_slice())?;
        }
        Ok(())
    }
}

/// Runs the case with a front of a file.
fn ending_of_front(alloc: Global, case: &Value, file: &str, front: &[u8]) -> Result<Ending> {
    let mut shelf = shelf_of(alloc, case)?;
    shelf.put(file, front)?;
    ending_of(alloc, case, &mut shelf, None)
}

/// Runs the case with each front of a file that is shorter than the file, and prints how these end.
pub(crate) fn print_cuts<W: Write>(
    alloc: Global,
    case: &Value,
    file: &str,
    print: &mut W,
) -> Result<()> {
    let text = case
        .get("files")
        .and_then(|files| files.get(file))
        .and_then(Value::as_str);
    let whole = text.unwrap_or("").as_bytes();
    let mut alike = Alike::begin(alloc, 0, &ending_of_front(alloc, case, file, b"")?)?;
    let mut last = 0usize;
    for length in 1..whole.len() {
        let ending = ending_of_front(alloc, case, file, &whole[..length])?;
        if alike.holds(&ending) {
            alike.join(&ending);
        } else {
            alike.print(alloc, last, print)?;
            alike = Alike::begin(alloc, length, &ending)?;
        }
        last = length;
    }
    alike.print(alloc, last, print)
}

/// Whether a run told of a failed write, with these bytes and no others on `out`.
fn tells_failure(ending: &Ending, before: &[u8]) -> bool {
    ending.status == 7
        && ending.out.bytes() == before
        && ending.err.bytes() == b"causal: write failed\n".as_slice()
}

/// Runs the case with each write of `out` failing in turn, and prints how these end. `whole` is what stands on `out` where none
/// fails.
pub(crate) fn print_writes<W: Write>(
    alloc: Global,
    case: &Value,
    whole: &[u8],
    print: &mut W,
) -> Result<()> {
    let most = most_of(case).max(1);
    let writes = whole.len().div_ceil(most);
    for write in 0..writes {
        let mut shelf = shelf_of(alloc, case)?;
        let ending = ending_of(alloc, case, &mut shelf, Some(write as u64))?;
        let before = write.saturating_mul(most).min(whole.len());
        if !tells_failure(&ending, &whole[..before]) {
            let line = format!(in alloc;
                "-- write {write} fails, and it isn't told by 7 with the bytes before it on out\n"
            )?;
            print.write_all(line.as_bytes())?;
            return Ok(());
        }
    }
    let line = format!(in alloc;
        "-- each of {writes} writes fails in turn: 7, the bytes before it on out\n"
    )?;
    print.write_all(line.as_bytes())?;
    Ok(())
}
