//! What is told of a fault in place of an answer.

ghost use Rattle.std.specs.Prelude.{◌≡◌, false, IfOk, OnOk};
ghost use Rattle.replies.specs.Vocabulary.{told_of};
ghost use Rattle.told.specs.Telling.{Refusal};

use replies::{Reply, refuse};
use std::alloc::{AllocError, Global};
use targets::TargetFault;

/// A fault for which there is no answer: how it ends, and what is told of it.
pub trait Refuses {
    /// What is told.
    ghost refusal: { Refusal Self };

    /// The reply that refuses; want of memory has none.
    fn refuse(&self, alloc: Global) -> Result<Reply, AllocError>
        ensures outcome { IfOk result (λ r. r.outcome ≡ refusal.outcome self.now) }
        ensures told { IfOk result (λ r. told_of r ≡ refusal.told self.now) }
        ensures memory { OnOk result (refusal.is_memory self.now ≡ false) };
}

impl Refuses for TargetFault {
    ghost use Rattle.told.specs.Refusals.{target_refusal};

    ghost refusal = { target_refusal };

    fn refuse(&self, alloc: Global) -> Result<Reply, AllocError> {
        refuse(alloc, self)
    }
}
