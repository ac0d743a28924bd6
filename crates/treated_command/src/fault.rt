//! What keeps lists from being answered.

ghost use Rattle.treated_command.specs.Faults.{IsAfterOrMemory};

use mixed_graph::Text;
use primed_questions::{refuse_acted_on, refuse_many};
use replies::Reply;
use std::alloc::{AllocError, Global};
use targets::TargetFault;
use told::Refuses;

/// What keeps lists from being answered.
#[derive(Drop)]
pub enum TreatedFault {
    /// A listed name is at fault, or y is empty.
    Listed(TargetFault),
    /// The treatment acts on this member of x, or of what is given.
    After(Text),
    /// With a primed name for each member of x there are more than 64 names.
    TooMany,
    /// Memory was refused.
    NoMemory,
}

impl Refuses for TreatedFault {
    ghost use Rattle.treated_command.specs.Faults.{treated_refusal};

    ghost refusal = { treated_refusal };

    fn refuse(&self, alloc: Global) -> Result<Reply, AllocError> {
        match self {
            TreatedFault::Listed(fault) => fault.refuse(alloc),
            TreatedFault::After(name) => refuse_acted_on(
                alloc,
                "x acts on this member of x, or of what is given",
                name.bytes(),
            ),
            TreatedFault::TooMany => refuse_many(
                alloc,
                "there are more than 64 names with those of x as observed",
            ),
            TreatedFault::NoMemory => Err(AllocError),
        }
    }
}

/// The treatment acts on a name.
pub fn after(alloc: Global, name: &[u8]) -> TreatedFault
    ensures { IsAfterOrMemory name.now result }
{
    match Text::of(alloc, name) {
        Ok(text) => TreatedFault::After(text),
        Err(_) => TreatedFault::NoMemory,
    }
}
