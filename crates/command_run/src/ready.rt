//! A reply that is ready to be written.

ghost use Rattle.std.specs.Prelude.{◌≡◌};

use replies::{Format, Outcome, Reply};
use std::alloc::Global;

/// A reply before anything is written of it, and the format in which the words ask for it.
#[derive(Drop)]
pub struct Ready {
    pub reply: Reply,
    pub format: Format,
}

impl Ready {
    /// A reply without a text.
    pub fn bare(alloc: Global, outcome: Outcome) -> Self
        ensures { result.reply.outcome ≡ outcome }
    {
        Ready {
            reply: Reply::bare(alloc, outcome),
            format: Format::Text,
        }
    }
}
