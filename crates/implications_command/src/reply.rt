//! The answer of `implications` over counts.

ghost use Rattle.std.specs.Prelude.{ℕ, ◌≡◌, ◌<◌, ◌≤◌, false, List, Option, IfOk, IfErr, length, option_map};
ghost use Rattle.mixed_graph.specs.Vocabulary.{has, members_below};
ghost use Rattle.count_rows.specs.Vocabulary.{Field};
ghost use Rattle.replies.specs.Vocabulary.{told_of};
ghost use Rattle.told.specs.declared.form.Form.{Form as AskedForm};
ghost use Rattle.told.specs.Vocabulary.{plain_form, Tells};
ghost use Rattle.implications_command.specs.CountsFaults.{is_memory, counts_refusal};
ghost use Rattle.implications_command.specs.Pairs.{PlainPairs, ArePairs, pairs_in};
ghost use Rattle.implications_command.specs.Right.{Measures, IsCountsFault, IsForCounts};
ghost use Rattle.implications_command.specs.Telling.{implications_telling};

use crate::answer::Answer;
use crate::differences::largest_differences;
use crate::fault::CountsFault;
use crate::used::used_in;
use count_table::read_counts;
use dag_reader::ReadGraph;
use diagram::Diagram;
use implications::Implication;
use replies::{Format, Reply};
use std::alloc::{AllocError, Global};
use told::{Form, Refuses, reply};

/// What is told of the pairs, each with the largest difference of counts in CSV, or of counts that are refused. The only error is want of memory.
pub fn differences_reply(
    alloc: Global,
    diagram: &Diagram,
    list: &Vec<Implication>,
    count: Option<&[u8]>,
    bytes: &[u8],
    format: Format,
) -> Result<Reply, AllocError>
    requires pairs { ArePairs (pairs_in diagram.now.observed list.now.items) }
    requires small { length bytes.now ≤ 67108864 }
    ensures { IfOk result (λ r. Tells implications_telling counts_refusal
        (IsForCounts (pairs_in diagram.now.observed list.now.items) (option_map (λ s. s.now) count.entry) bytes.now) (plain_form format)
        diagram.now.observed.names r.outcome (told_of r)) }
{
    let answer = differences_answer(alloc, &diagram.observed, list.as_slice(), count, bytes);
    reply(alloc, Form::plain(format), &diagram.observed.names, &answer)
}

/// What is told where there are more than 67,108,864 bytes of counts. The only error is want of memory.
pub fn long_counts(alloc: Global) -> Result<Reply, AllocError>
    ensures { IfOk result (λ r. (form : AskedForm) (p : PlainPairs) (count : Option Field) (bytes : List ℕ) (names : List (List ℕ)) → 67108864 < length bytes
        → Tells implications_telling counts_refusal (IsForCounts p count bytes) form names r.outcome (told_of r)) }
{
    CountsFault::TooLong.refuse(alloc)
}

/// The pairs of an observed graph, each with the largest difference of counts in CSV; or what is wrong with these.
pub fn differences_answer(
    alloc: Global,
    seen: &ReadGraph,
    list: &[Implication],
    count: Option<&[u8]>,
    bytes: &[u8],
) -> Result<Answer, CountsFault>
    requires pairs { ArePairs (pairs_in seen.now list.now) }
    requires small { length bytes.now ≤ 67108864 }
    ensures answer { IfOk result (Measures (pairs_in seen.now list.now) (option_map (λ s. s.now) count.entry) bytes.now) }
    ensures fault { IfErr result (λ fault. is_memory fault ≡ false → IsCountsFault (pairs_in seen.now list.now) (option_map (λ s. s.now) count.entry) bytes.now fault) }
{
    match read_counts(alloc, bytes, &seen.names, used_in(list), count) {
        Ok(counts) => {
            let measured = largest_differences(alloc, seen, list, &counts)?;
            Ok(Answer::Differences(counts, measured))
        }
        Err(fault) => Err(CountsFault::Faulty(fault)),
    }
}
