//! The answer over counts.

ghost use Rattle.std.specs.Prelude.{ℕ, ◌≡◌, ◌<◌, ◌≤◌, false, List, Bool, Option, IfOk, IfErr, length, option_map};
ghost use Rattle.mixed_graph.specs.Vocabulary.{has, members_below};
ghost use Rattle.count_rows.specs.Vocabulary.{Field};
ghost use Rattle.replies.specs.Vocabulary.{told_of};
ghost use Rattle.told.specs.declared.form.Form.{Form as AskedForm};
ghost use Rattle.told.specs.Vocabulary.{Tells};
ghost use Rattle.evaluate_command.specs.ValuesFaults.{is_memory, values_refusal};
ghost use Rattle.paired_values.specs.Bytes.{HasAnswer, IsBytesFault};
ghost use Rattle.paired_values.specs.Vocabulary.{IsTableFault, read_in};
ghost use Rattle.evaluate_natural.specs.Effects.{PlainNested, nested_in, paired_in, IsIdentified};
ghost use Rattle.evaluate_natural.specs.Right.{AreValuesOf, HasNoValue, IsForCounts};
ghost use Rattle.evaluate_natural.specs.Telling.{nested_telling};

use crate::answer::Answer;
use crate::evaluating::nested_values;
use crate::identified::{Identified, paired};
use count_table::{Counts, read_counts};
use dag_reader::ReadGraph;
use diagram::Diagram;
use evaluate_command::ValuesFault;
use paired_values::{observed_axes, pinned_for, read_for};
use replies::Reply;
use std::alloc::{AllocError, Global};
use told::{Form, Refuses, reply};

/// What is told of the effect that was identified on a diagram, at each first and each second level of x, of what is given and of y, from counts in CSV;
/// or of counts that are refused, or of the first printed cell that has no value. The only error is want of memory.
pub fn nested_reply(
    alloc: Global,
    diagram: &Diagram,
    found: &Identified,
    count: Option<&[u8]>,
    exact: bool,
    bytes: &[u8],
    form: Form,
) -> Result<Reply, AllocError>
    requires identified { IsIdentified (nested_in diagram.now.observed found.now) }
    requires small { length bytes.now ≤ 67108864 }
    ensures { IfOk result (λ r. Tells nested_telling values_refusal
        (IsForCounts exact (nested_in diagram.now.observed found.now) (option_map (λ s. s.now) count.entry) bytes.now) form
        diagram.now.observed.names r.outcome (told_of r)) }
{
    let answer = nested_answer(alloc, &diagram.observed, found, count, exact, bytes);
    reply(alloc, form, &diagram.observed.names, &answer)
}

/// What is told where there are more than 67,108,864 bytes of counts. The only error is want of memory.
pub fn long_counts(alloc: Global) -> Result<Reply, AllocError>
    ensures { IfOk result (λ r. (form : AskedForm) (exact : Bool) (e : PlainNested) (count : Option Field) (bytes : List ℕ) (names : List (List ℕ)) → 67108864 < length bytes
        → Tells nested_telling values_refusal (IsForCounts exact e count bytes) form names r.outcome (told_of r)) }
{
    ValuesFault::TooLong.refuse(alloc)
}

/// The values of an effect that was identified in an observed graph, from counts in CSV: in exact fractions, or in bounds; or why there are none.
fn nested_answer<'a>(
    alloc: Global,
    seen: &'a ReadGraph,
    found: &Identified,
    count: Option<&[u8]>,
    exact: bool,
    bytes: &[u8],
) -> Result<Answer, ValuesFault<'a>>
    requires identified { IsIdentified (nested_in seen.now found.now) }
    requires small { length bytes.now ≤ 67108864 }
    ensures answer { let e = nested_in seen.now found.now in
        IfOk result (HasAnswer e.names (read_in (paired_in e)) (AreValuesOf exact e) (option_map (λ s. s.now) count.entry) bytes.now) }
    ensures fault { let e = nested_in seen.now found.now in
        IfErr result (λ f. is_memory f ≡ false
        → IsBytesFault e.names (read_in (paired_in e)) (HasNoValue exact e) (option_map (λ s. s.now) count.entry) bytes.now f) }
{
    let read = read_for(&paired(seen, found));
    match read_counts(alloc, bytes, &seen.names, read, count) {
        Ok(counts) => over_table(alloc, seen, found, exact, counts),
        Err(fault) => Err(ValuesFault::Counts(fault)),
    }
}

/// The values over a table of counts.
fn over_table<'a>(
    alloc: Global,
    seen: &'a ReadGraph,
    found: &Identified,
    exact: bool,
    counts: Counts,
) -> Result<Answer, ValuesFault<'a>>
    requires identified { IsIdentified (nested_in seen.now found.now) }
    requires read { counts.vertices ≡ members_below (has (read_in (paired_in (nested_in seen.now found.now)))) 64 }
    ensures answer { IfOk result (AreValuesOf exact (nested_in seen.now found.now) counts) }
    ensures fault { let e = nested_in seen.now found.now in IfErr result (λ f. is_memory f ≡ false → IsTableFault e.names (HasNoValue exact e) counts f) }
{
    // The clause `table` of `used` is needed: it is a table of counts.
    let _used = counts.used();
    let second = observed_axes(alloc, seen.graph.n, found.asked.question.x)?;
    let pinned = pinned_for(alloc, &paired(seen, found))?;
    match nested_values(alloc, seen, found, &counts, exact) {
        Ok(values) => Ok(Answer {
            asked: found.asked,
            second,
            pinned,
            counts,
            values,
        }),
        Err(fault) => Err(ValuesFault::NoValue(&seen.names, counts, fault)),
    }
}
