//! Why there are no bounds over counts.

ghost use Rattle.std.specs.Prelude.{◌≡◌, false, IfOk, OnOk, codes};
ghost use Rattle.std.specs.Str.{IsUtf8};
ghost use Rattle.answer_json.specs.Vocabulary.{json_line};
ghost use Rattle.answer_text.specs.Vocabulary.{line_of};
ghost use Rattle.count_eval.specs.Vocabulary.{cell_of};
ghost use Rattle.quantity.specs.declared.fault.QuantityFault.{QuantityFault as Why};
ghost use Rattle.replies.specs.Vocabulary.{told_of};
ghost use Rattle.told.specs.Telling.{Telling};
ghost use Rattle.bounds_command.specs.Faults.{bounds_refusal, records_text, records_json, wide_text, wide_json, stop_begun};

use answer_json::{Object, begin_fault};
use count_answers::{entries, push_assignments};
use count_json::{count_fault, count_size, push_cell};
use count_rows::CountFault;
use count_table::Counts;
use mixed_graph::{Names, VSet};
use replies::{Outcome, Reply};
use std::alloc::{AllocError, Global};

/// Why there are no bounds over counts.
#[derive(Drop)]
pub enum BoundsFault {
    /// There are more than 67,108,864 bytes.
    TooLong,
    /// The bytes are no counts.
    Counts(CountFault),
    /// What is given has no records at a cell of these counts.
    NoRecords {
        counts: Counts,
        given: VSet,
        cell: [u32; 64],
    },
    /// A number would be over 2^127 - 1.
    TooWide,
    /// Want of memory.
    NoMemory,
}

/// The line of a condition without records: `causal: evaluation fault 1: main node 0 at Z=level`.
fn records_line(
    alloc: Global,
    names: &Names,
    counts: &Counts,
    given: VSet,
    cell: &[u32; 64],
) -> Result<Vec<u8>, AllocError>
    ensures { IfOk result (λ v. v.items ≡ line_of (records_text names.now counts.now given.bits (cell_of cell.now))) }
{
    let mut line = Vec::from_slice(alloc, b"causal: ")?;
    line.extend_from_slice(b"evaluation fault 1: main node 0 at ")?;
    push_assignments(&mut line, names, counts, given, entries(cell))?;
    line.push(b'\n')?;
    Ok(line)
}

/// The object of an evaluation fault with this number, up to its node.
fn begin_stop(alloc: Global, number: u64, message: &str) -> Result<Object, AllocError>
    ensures { IfOk result (λ o. o ≡ stop_begun number message.now) }
{
    let mut object = begin_fault(alloc, "evaluation", number, message)?;
    object.key("definition")?;
    object.null()?;
    object.number_at("node", 0)?;
    Ok(object)
}

/// The object of a condition without records, as a line.
fn records_object(
    alloc: Global,
    names: &Names,
    counts: &Counts,
    given: VSet,
    cell: &[u32; 64],
) -> Result<Vec<u8>, AllocError>
    ensures { IfOk result (λ v. v.items ≡ json_line (records_json names.now counts.now given.bits (cell_of cell.now))) }
{
    let mut object = begin_stop(alloc, 1, "a divisor is 0 over these counts")?;
    object.key("cell")?;
    push_cell(&mut object, names, counts, given, entries(cell))?;
    object.end_object()?;
    object.line()
}

/// The object of a number that is too wide, as a line.
fn wide_object(alloc: Global) -> Result<Vec<u8>, AllocError>
    ensures { IfOk result (λ v. v.items ≡ json_line wide_json) }
{
    let mut object = begin_stop(alloc, 2, "a number passes 2^127 - 1")?;
    object.end_object()?;
    object.line()
}

/// The reply that refuses. The only error is want of memory.
pub fn refuse_bounds(alloc: Global, names: &Names, fault: &BoundsFault) -> Result<Reply, AllocError>
    ensures outcome { IfOk result (λ r. r.outcome ≡ (bounds_refusal names.now).outcome fault.now) }
    ensures told { IfOk result (λ r. told_of r ≡ (bounds_refusal names.now).told fault.now) }
    ensures memory { OnOk result ((bounds_refusal names.now).is_memory fault.now ≡ false) }
{
    match fault {
        BoundsFault::TooLong => Ok(Reply {
            outcome: Outcome::Second,
            text: CountFault::size_line(alloc)?,
            object: count_size(alloc)?,
        }),
        BoundsFault::Counts(fault) => Ok(Reply {
            outcome: Outcome::Second,
            text: fault.line(alloc)?,
            object: count_fault(alloc, fault)?,
        }),
        BoundsFault::NoRecords {
            counts,
            given,
            cell,
        } => Ok(Reply {
            outcome: Outcome::Evaluation,
            text: records_line(alloc, names, counts, *given, cell)?,
            object: records_object(alloc, names, counts, *given, cell)?,
        }),
        BoundsFault::TooWide => Ok(Reply {
            outcome: Outcome::Evaluation,
            text: Vec::from_slice(alloc, b"causal: evaluation fault 2: main node 0\n")?,
            object: wide_object(alloc)?,
        }),
        BoundsFault::NoMemory => Err(AllocError),
    }
}
