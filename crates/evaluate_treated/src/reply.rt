//! The answer over counts.

ghost use Rattle.std.specs.Prelude.{ℕ, ◌≡◌, ◌<◌, ◌≤◌, false, List, Bool, Option, IfOk, IfErr, length, option_map};
ghost use Rattle.mixed_graph.specs.Vocabulary.{has, members_below};
ghost use Rattle.count_rows.specs.Vocabulary.{Field};
ghost use Rattle.replies.specs.Vocabulary.{told_of};
ghost use Rattle.told.specs.declared.form.Form.{Form as AskedForm};
ghost use Rattle.told.specs.Vocabulary.{Tells};
ghost use Rattle.evaluate_command.specs.ValuesFaults.{is_memory, values_refusal};
ghost use Rattle.paired_values.specs.Bytes.{HasAnswer, IsBytesFault};
ghost use Rattle.paired_values.specs.Vocabulary.{IsTableFault, read_in};
ghost use Rattle.evaluate_treated.specs.Effects.{PlainAmong, among_in, paired_in, IsHeld};
ghost use Rattle.evaluate_treated.specs.Right.{HasItsLevels, HasNoValue, IsForCounts, IsOverTable};
ghost use Rattle.evaluate_treated.specs.Telling.{among_telling};

use crate::answer::{AmongValues, Answer, NoModel};
use crate::evaluating::among_values;
use crate::identified::{Identified, paired};
use crate::levels::beyond_two;
use count_table::{Counts, read_counts};
use dag_reader::ReadGraph;
use diagram::Diagram;
use evaluate_command::ValuesFault;
use paired_values::{PairFault, observed_axes, pinned_for, read_for};
use replies::Reply;
use std::alloc::{AllocError, Global};
use told::{Form, Refuses, reply};

/// What is told of the effect that was identified on a diagram, at each level of x as it is set and as it was observed, of what is given and of y, from counts
/// in CSV; or of counts that are refused, or of the first printed cell that has no value. The only error is want of memory.
pub fn among_reply(
    alloc: Global,
    diagram: &Diagram,
    found: &Identified,
    count: Option<&[u8]>,
    exact: bool,
    bytes: &[u8],
    form: Form,
) -> Result<Reply, AllocError>
    requires held { IsHeld (among_in diagram.now.observed found.now) found.now.way }
    requires small { length bytes.now ≤ 67108864 }
    ensures { IfOk result (λ r. Tells among_telling values_refusal
        (IsForCounts exact (among_in diagram.now.observed found.now) (option_map (λ s. s.now) count.entry) bytes.now) form
        diagram.now.observed.names r.outcome (told_of r)) }
{
    let answer = among_answer(alloc, &diagram.observed, found, count, exact, bytes);
    reply(alloc, form, &diagram.observed.names, &answer)
}

/// What is told where there are more than 67,108,864 bytes of counts. The only error is want of memory.
pub fn long_counts(alloc: Global) -> Result<Reply, AllocError>
    ensures { IfOk result (λ r. (form : AskedForm) (exact : Bool) (e : PlainAmong) (count : Option Field) (bytes : List ℕ) (names : List (List ℕ)) → 67108864 < length bytes
        → Tells among_telling values_refusal (IsForCounts exact e count bytes) form names r.outcome (told_of r)) }
{
    ValuesFault::TooLong.refuse(alloc)
}

/// The answer for an effect that was identified in an observed graph, from counts in CSV: in exact fractions, or in bounds; or why there is none.
fn among_answer<'a>(
    alloc: Global,
    seen: &'a ReadGraph,
    found: &'a Identified,
    count: Option<&[u8]>,
    exact: bool,
    bytes: &[u8],
) -> Result<Answer<'a>, ValuesFault<'a>>
    requires held { IsHeld (among_in seen.now found.now) found.now.way }
    requires small { length bytes.now ≤ 67108864 }
    ensures answer { let e = among_in seen.now found.now in
        IfOk result (HasAnswer e.names (read_in (paired_in e)) (IsOverTable exact e) (option_map (λ s. s.now) count.entry) bytes.now) }
    ensures fault { let e = among_in seen.now found.now in
        IfErr result (λ f. is_memory f ≡ false
        → IsBytesFault e.names (read_in (paired_in e)) (HasNoValue exact e) (option_map (λ s. s.now) count.entry) bytes.now f) }
{
    let read = read_for(&paired(seen, found));
    match read_counts(alloc, bytes, &seen.names, read, count) {
        Ok(counts) => over_table(alloc, seen, found, exact, counts),
        Err(fault) => Err(ValuesFault::Counts(fault)),
    }
}

/// The answer over a table of counts.
fn over_table<'a>(
    alloc: Global,
    seen: &'a ReadGraph,
    found: &'a Identified,
    exact: bool,
    counts: Counts,
) -> Result<Answer<'a>, ValuesFault<'a>>
    requires held { IsHeld (among_in seen.now found.now) found.now.way }
    requires read { counts.vertices ≡ members_below (has (read_in (paired_in (among_in seen.now found.now)))) 64 }
    ensures answer { IfOk result (IsOverTable exact (among_in seen.now found.now) counts) }
    ensures fault { let e = among_in seen.now found.now in IfErr result (λ f. is_memory f ≡ false → IsTableFault e.names (HasNoValue exact e) counts f) }
{
    if let Some(path) = beyond_two(found, &counts) {
        return Ok(Answer::Path(path));
    }
    by_levels(alloc, seen, found, exact, counts)
}

/// The values over a table that has levels of which they are had; or that no model has the counts.
fn by_levels<'a>(
    alloc: Global,
    seen: &'a ReadGraph,
    found: &Identified,
    exact: bool,
    counts: Counts,
) -> Result<Answer<'a>, ValuesFault<'a>>
    requires held { IsHeld (among_in seen.now found.now) found.now.way }
    requires read { counts.vertices ≡ members_below (has (read_in (paired_in (among_in seen.now found.now)))) 64 }
    requires levels { HasItsLevels found.now.asked.sets.x.bits counts (among_in seen.now found.now).reading }
    ensures answer { IfOk result (IsOverTable exact (among_in seen.now found.now) counts) }
    ensures fault { let e = among_in seen.now found.now in IfErr result (λ f. is_memory f ≡ false → IsTableFault e.names (HasNoValue exact e) counts f) }
{
    // The clause `table` of `used` is needed: it is a table of counts.
    let _used = counts.used();
    let asked = found.asked;
    let observed = observed_axes(alloc, seen.graph.n, asked.sets.x)?;
    let pinned = pinned_for(alloc, &paired(seen, found))?;
    match among_values(alloc, seen, found, &counts, exact) {
        Ok(values) => Ok(Answer::Values(AmongValues {
            asked,
            observed,
            pinned,
            counts,
            values,
        })),
        Err(PairFault::Below { cell }) => Ok(Answer::NoModel(NoModel {
            asked,
            observed,
            pinned,
            counts,
            cell,
        })),
        Err(PairFault::Stopped(fault)) => Err(ValuesFault::NoValue(&seen.names, counts, fault)),
    }
}
