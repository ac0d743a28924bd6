//! The bounds over the bytes of counts.

ghost use Rattle.std.specs.Prelude.{ℕ, ◌≡◌, ◌≤◌, false, IfOk, IfErr, length, option_map};
ghost use Rattle.mixed_graph.specs.Vocabulary.{graph_of};
ghost use Rattle.bounds_command.specs.Faults.{is_memory};
ghost use Rattle.bounds_command.specs.Right.{IsKnown, IsCounted, IsOverTable, IsFaultOver, IsForCounts, IsFaultFor};

use crate::answer::Answer;
use crate::faults::BoundsFault;
use bound_values::{CellFault, Question, bounds_over};
use count_table::{Counts, read_counts};
use dag_reader::ReadGraph;
use std::alloc::Global;

/// The bounds of the effect that a question asks for, from counts in CSV: in exact fractions, or in units of 10^-18.
///
/// The fault is that of the counts; or that what is given has no records at a cell, or that a number is too wide.
pub fn answer_over(
    alloc: Global,
    seen: &ReadGraph,
    question: Question,
    exact: bool,
    count: Option<&[u8]>,
    bytes: &[u8],
) -> Result<Answer, BoundsFault>
    requires known { IsKnown (graph_of seen.now.graph) seen.now.names question }
    requires small { length bytes.now ≤ 67108864 }
    ensures answer { IfOk result (IsForCounts exact (graph_of seen.now.graph) seen.now.names question (option_map (λ s. s.now) count.entry) bytes.now) }
    ensures fault { IfErr result (λ f. is_memory f ≡ false → IsFaultFor exact (graph_of seen.now.graph) seen.now.names question (option_map (λ s. s.now) count.entry) bytes.now f) }
{
    match read_counts(alloc, bytes, &seen.names, question.joint(), count) {
        Ok(counts) => over_table(alloc, seen, question, exact, counts),
        Err(fault) => Err(BoundsFault::Counts(fault)),
    }
}

/// The bounds over a table of counts.
fn over_table(
    alloc: Global,
    seen: &ReadGraph,
    question: Question,
    exact: bool,
    counts: Counts,
) -> Result<Answer, BoundsFault>
    requires known { IsKnown (graph_of seen.now.graph) seen.now.names question }
    requires used { IsCounted question counts }
    ensures answer { IfOk result (IsOverTable exact (graph_of seen.now.graph) question counts) }
    ensures fault { IfErr result (λ f. is_memory f ≡ false → IsFaultOver exact (graph_of seen.now.graph) question counts f) }
{
    // The clause `table` of `used` is needed: each used vertex has a level, and none other.
    let _used = counts.used();
    match bounds_over(alloc, &counts, seen.graph.n, question, exact) {
        Ok(found) => Ok(Answer {
            counts,
            question,
            exact,
            found,
        }),
        Err(CellFault::NoRecords(cell)) => Err(BoundsFault::NoRecords {
            counts,
            given: question.given,
            cell,
        }),
        Err(CellFault::TooWide) => Err(BoundsFault::TooWide),
        Err(CellFault::NoMemory) => Err(BoundsFault::NoMemory),
    }
}
