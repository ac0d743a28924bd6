//! The replies that refuse a question.

ghost use Rattle.std.specs.Prelude.{◌≡◌, IfOk};
ghost use Rattle.replies.specs.Vocabulary.{told_of};
ghost use Rattle.primed_questions.specs.Refusals.{acted_on_told, many_told};

use answer_json::{bare_fault, text_fault};
use answer_text::names::{refusal_line, with_name};
use replies::{Outcome, Reply};
use std::alloc::{AllocError, Global};

/// The reply to a name on which the treatment acts, with the sentence that says so.
pub fn refuse_acted_on(alloc: Global, sentence: &str, name: &[u8]) -> Result<Reply, AllocError>
    ensures outcome { IfOk result (λ r. r.outcome ≡ Outcome.Graph) }
    ensures told { IfOk result (λ r. told_of r ≡ acted_on_told sentence.now name.now) }
{
    Ok(Reply {
        outcome: Outcome::Graph,
        text: refusal_line(alloc, &with_name(alloc, "target fault 9: ", name)?)?,
        object: text_fault(alloc, "target", 9, sentence, "name", name)?,
    })
}

/// The reply to more than 64 names, with the sentence that says which these are.
pub fn refuse_many(alloc: Global, sentence: &str) -> Result<Reply, AllocError>
    ensures outcome { IfOk result (λ r. r.outcome ≡ Outcome.Graph) }
    ensures told { IfOk result (λ r. told_of r ≡ many_told sentence.now) }
{
    Ok(Reply {
        outcome: Outcome::Graph,
        text: refusal_line(alloc, &Vec::from_slice(alloc, b"target fault 10")?)?,
        object: bare_fault(alloc, "target", 10, sentence)?,
    })
}
