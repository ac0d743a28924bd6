//! What keeps lists from being answered.

ghost use Rattle.std.specs.Prelude.{◌≡◌, IfOk};
ghost use Rattle.answer_text.specs.Vocabulary.{line_of};
ghost use Rattle.answer_json.specs.Vocabulary.{json_line};
ghost use Rattle.natural_command.specs.Faults.{empty_text, empty_json, IsAfterOrMemory};

use answer_json::bare_fault;
use answer_text::names::refusal_line;
use mixed_graph::Text;
use primed_questions::{refuse_acted_on, refuse_many};
use replies::{Outcome, Reply};
use std::alloc::{AllocError, Global};
use targets::TargetFault;
use told::Refuses;

/// What keeps lists from being answered.
#[derive(Drop)]
pub enum NaturalFault {
    /// A listed name is at fault, or x or y is empty.
    Listed(TargetFault),
    /// No mediator is listed.
    NoMediator,
    /// The treatment acts on this member of what is given.
    After(Text),
    /// With a primed name for each member of x there are more than 64 names.
    TooMany,
    /// Memory was refused.
    NoMemory,
}

impl Refuses for NaturalFault {
    ghost use Rattle.natural_command.specs.Faults.{natural_refusal};

    ghost refusal = { natural_refusal };

    fn refuse(&self, alloc: Global) -> Result<Reply, AllocError> {
        match self {
            NaturalFault::Listed(fault) => fault.refuse(alloc),
            NaturalFault::NoMediator => refuse_empty(alloc),
            NaturalFault::After(name) => refuse_acted_on(
                alloc,
                "x acts on this member of what is given",
                name.bytes(),
            ),
            NaturalFault::TooMany => refuse_many(
                alloc,
                "there are more than 64 names with the second names of x",
            ),
            NaturalFault::NoMemory => Err(AllocError),
        }
    }
}

/// The reply to a list without a mediator.
fn refuse_empty(alloc: Global) -> Result<Reply, AllocError>
    ensures outcome { IfOk result (λ r. r.outcome ≡ Outcome.Graph) }
    ensures text { IfOk result (λ r. r.text.items ≡ line_of empty_text) }
    ensures object { IfOk result (λ r. r.object.items ≡ json_line empty_json) }
{
    let sentence = "there is no mediator";
    Ok(Reply {
        outcome: Outcome::Graph,
        text: refusal_line(alloc, &Vec::from_slice(alloc, b"target fault 11")?)?,
        object: bare_fault(alloc, "target", 11, sentence)?,
    })
}

/// The treatment acts on a name.
pub fn after(alloc: Global, name: &[u8]) -> NaturalFault
    ensures { IsAfterOrMemory name.now result }
{
    match Text::of(alloc, name) {
        Ok(text) => NaturalFault::After(text),
        Err(_) => NaturalFault::NoMemory,
    }
}
