//! The answer of `evaluate` over counts.

ghost use Rattle.std.specs.Prelude.{ℕ, ◌≡◌, ◌<◌, ◌≤◌, false, List, Bool, Option, IfOk, IfErr, length, option_map};
ghost use Rattle.mixed_graph.specs.Vocabulary.{has, members_below};
ghost use Rattle.count_rows.specs.Vocabulary.{Field};
ghost use Rattle.replies.specs.Vocabulary.{told_of};
ghost use Rattle.told.specs.declared.form.Form.{Form as AskedForm};
ghost use Rattle.told.specs.Vocabulary.{plain_form, Tells};
ghost use Rattle.evaluate_command.specs.Effects.{PlainEffect, effect_in, used_in, IsIdentified};
ghost use Rattle.evaluate_command.specs.Telling.{evaluate_telling};
ghost use Rattle.evaluate_command.specs.Right.{IsForTable, IsFaultOver, HasValues, IsCountsFault, IsForCounts};
ghost use Rattle.evaluate_command.specs.ValuesFaults.{is_memory, values_refusal};

use crate::answer::{Answer, EffectValues};
use crate::breaks::asked_break;
use crate::evaluating::values_over;
use crate::faults::ValuesFault;
use crate::identified::Identified;
use crate::mentioned::used_in;
use count_table::{Counts, read_counts};
use dag_reader::ReadGraph;
use diagram::Diagram;
use identify_text::free_beside;
use replies::{Format, Reply};
use std::alloc::{AllocError, Global};
use told::{Form, Refuses, reply};

/// What is told of the effect that was identified on a diagram, at each level of x, y and what is given, from counts in CSV, and with `matched` of
/// the pair by which no model has the counts; or of counts that are refused, or of the first printed cell at which the formula has no value. The only
/// error is want of memory.
pub fn evaluate_reply(
    alloc: Global,
    diagram: &Diagram,
    found: &Identified,
    count: Option<&[u8]>,
    exact: bool,
    zero: bool,
    matched: bool,
    bytes: &[u8],
    format: Format,
) -> Result<Reply, AllocError>
    requires identified { IsIdentified (effect_in diagram.now.observed found.now) }
    requires small { length bytes.now ≤ 67108864 }
    ensures { IfOk result (λ r. Tells evaluate_telling values_refusal
        (IsForCounts exact zero matched (effect_in diagram.now.observed found.now) (option_map (λ s. s.now) count.entry) bytes.now) (plain_form format)
        diagram.now.observed.names r.outcome (told_of r)) }
{
    let answer = evaluate_answer(
        alloc,
        &diagram.observed,
        found,
        count,
        exact,
        zero,
        matched,
        bytes,
    );
    reply(alloc, Form::plain(format), &diagram.observed.names, &answer)
}

/// What is told where there are more than 67,108,864 bytes of counts. The only error is want of memory.
pub fn long_counts(alloc: Global) -> Result<Reply, AllocError>
    ensures { IfOk result (λ r. (form : AskedForm) (exact zero matched : Bool) (e : PlainEffect) (count : Option Field) (bytes : List ℕ) (names : List (List ℕ)) → 67108864 < length bytes
        → Tells evaluate_telling values_refusal (IsForCounts exact zero matched e count bytes) form names r.outcome (told_of r)) }
{
    ValuesFault::TooLong.refuse(alloc)
}

/// The values of an effect that was identified in an observed graph, at each level of x, y and what is given, from counts in CSV: in exact
/// fractions, or in bounds; or why there are none.
///
/// With `zero` a product with a factor 0 is 0 whatever its other factors are. With `matched` the first pair that the graph implies and the counts break is
/// found too: then no model of the graph has the counts.
pub fn evaluate_answer<'a>(
    alloc: Global,
    seen: &'a ReadGraph,
    found: &Identified,
    count: Option<&[u8]>,
    exact: bool,
    zero: bool,
    matched: bool,
    bytes: &[u8],
) -> Result<Answer, ValuesFault<'a>>
    requires identified { IsIdentified (effect_in seen.now found.now) }
    requires small { length bytes.now ≤ 67108864 }
    ensures answer { IfOk result (HasValues exact zero matched (effect_in seen.now found.now) (option_map (λ s. s.now) count.entry) bytes.now) }
    ensures fault { IfErr result (λ f. is_memory f ≡ false → IsCountsFault exact zero (effect_in seen.now found.now) (option_map (λ s. s.now) count.entry) bytes.now f) }
{
    match read_counts(alloc, bytes, &seen.names, used_in(found), count) {
        Ok(counts) => over_table(alloc, seen, found, exact, zero, matched, counts),
        Err(fault) => Err(ValuesFault::Counts(fault)),
    }
}

/// The values over a table of counts.
fn over_table<'a>(
    alloc: Global,
    seen: &'a ReadGraph,
    found: &Identified,
    exact: bool,
    zero: bool,
    matched: bool,
    counts: Counts,
) -> Result<Answer, ValuesFault<'a>>
    requires identified { IsIdentified (effect_in seen.now found.now) }
    requires used { counts.vertices ≡ members_below (has (used_in (effect_in seen.now found.now))) 64 }
    ensures answer { IfOk result (IsForTable exact zero matched (effect_in seen.now found.now) counts) }
    ensures fault { IfErr result (λ f. is_memory f ≡ false → IsFaultOver exact zero (effect_in seen.now found.now) counts f) }
{
    // The clause `table` of `used` is needed: it is a table of counts.
    let _used = counts.used();
    let pinned = free_beside(alloc, &found.formula, &found.target)?;
    match values_over(alloc, seen, found, &counts, exact, zero) {
        Ok(values) => {
            let broken = asked_break(alloc, &seen.graph, &counts, matched)?;
            Ok(Answer::Values(EffectValues {
                target: found.target,
                pinned,
                counts,
                values,
                broken,
            }))
        }
        Err(fault) => Err(ValuesFault::NoValue(&seen.names, counts, fault)),
    }
}
