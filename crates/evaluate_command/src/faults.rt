//! Why there are no values over counts.

ghost use Rattle.std.specs.Prelude.{◌≡◌, ◌++◌, OnOk, IfOk};
ghost use Rattle.answer_text.specs.Vocabulary.{line_of};
ghost use Rattle.evaluate_command.specs.declared.faults.ValuesFault.TheVariants.{NoMemory};
ghost use Rattle.evaluate_command.specs.Stopped.{place_text, stop_words};

use count_answers::{entries, push_assignments};
use count_eval::EvalFault;
use count_json::{count_fault, count_size, evaluation_fault};
use count_rows::CountFault;
use count_table::Counts;
use mixed_graph::Names;
use prob_expr::Place;
use replies::{Outcome, Reply};
use std::alloc::{AllocError, Global};
use told::Refuses;

/// Why there are no values over counts.
#[derive(Drop)]
pub enum ValuesFault<'a> {
    /// There are more than 67,108,864 bytes.
    TooLong,
    /// The bytes are no counts.
    Counts(CountFault),
    /// The formula has no value at some cell of these counts, whose vertices have these names.
    NoValue(&'a Names, Counts, EvalFault),
    /// Memory was refused.
    NoMemory,
}

impl<'a> From<AllocError> for ValuesFault<'a> {
    ghost from_gives = { λ _ e. e ≡ NoMemory };

    fn from(_: AllocError) -> Self {
        ValuesFault::NoMemory
    }
}

impl<'a> Refuses for ValuesFault<'a> {
    ghost use Rattle.evaluate_command.specs.ValuesFaults.{values_refusal};

    ghost refusal = { values_refusal };

    fn refuse(&self, alloc: Global) -> Result<Reply, AllocError> {
        match self {
            ValuesFault::TooLong => Ok(Reply {
                outcome: Outcome::Second,
                text: CountFault::size_line(alloc)?,
                object: count_size(alloc)?,
            }),
            ValuesFault::Counts(fault) => Ok(Reply {
                outcome: Outcome::Second,
                text: fault.line(alloc)?,
                object: count_fault(alloc, fault)?,
            }),
            ValuesFault::NoValue(names, counts, fault) => Ok(Reply {
                outcome: Outcome::Evaluation,
                text: stop_line(alloc, names, counts, fault)?,
                object: evaluation_fault(alloc, names, counts, fault)?,
            }),
            ValuesFault::NoMemory => Err(AllocError),
        }
    }
}

/// Appends the place of a node, as `main node 3` or `q0 node 3`.
fn push_place(alloc: Global, out: &mut Vec<u8>, place: Place) -> Result<(), AllocError>
    ensures { OnOk result (out.new.items ≡ out.old.items ++ place_text place.def place.node) }
{
    let node = place.node;
    match place.def {
        None => {
            let text = format!(in alloc; "main node {node}")?;
            out.extend_from_slice(text.as_bytes())
        }
        Some(number) => {
            let text = format!(in alloc; "q{number} node {node}")?;
            out.extend_from_slice(text.as_bytes())
        }
    }
}

/// Appends what is wrong, and at which node.
fn push_stop(
    alloc: Global,
    out: &mut Vec<u8>,
    names: &Names,
    counts: &Counts,
    fault: &EvalFault,
) -> Result<(), AllocError>
    ensures { OnOk result (out.new.items ≡ out.old.items ++ stop_words names.now counts.now fault.now) }
{
    match fault {
        EvalFault::NoSupport { cell, place } => {
            out.extend_from_slice(b"evaluation fault 1: ")?;
            push_place(alloc, out, *place)?;
            out.extend_from_slice(b" at ")?;
            push_assignments(out, names, counts, counts.used(), entries(cell))
        }
        EvalFault::TooWide { place } => {
            out.extend_from_slice(b"evaluation fault 2: ")?;
            push_place(alloc, out, *place)
        }
        EvalFault::TooFine { place } => {
            out.extend_from_slice(b"evaluation fault 3: ")?;
            push_place(alloc, out, *place)
        }
        EvalFault::NoMemory => Err(AllocError),
    }
}

/// The line of a fault: why the formula has no value at a cell, and at which node.
fn stop_line(
    alloc: Global,
    names: &Names,
    counts: &Counts,
    fault: &EvalFault,
) -> Result<Vec<u8>, AllocError>
    ensures { IfOk result (λ line. line.items ≡ line_of (stop_words names.now counts.now fault.now)) }
{
    let mut line = Vec::from_slice(alloc, b"causal: ")?;
    push_stop(alloc, &mut line, names, counts, fault)?;
    line.push(b'\n')?;
    Ok(line)
}
