//! What is wrong with counts.

ghost use Rattle.std.specs.Prelude.{◌≡◌};
ghost use Rattle.implications_command.specs.declared.fault.CountsFault.TheVariants.{NoMemory};

use count_json::{count_fault, count_size};
use count_rows::CountFault;
use replies::{Outcome, Reply};
use std::alloc::{AllocError, Global};
use told::Refuses;

/// What is wrong with counts.
#[derive(Drop)]
pub enum CountsFault {
    /// There are more than 67,108,864 bytes.
    TooLong,
    /// Their text has a fault.
    Faulty(CountFault),
    /// Memory was refused.
    NoMemory,
}

impl From<AllocError> for CountsFault {
    ghost from_gives = { λ _ e. e ≡ NoMemory };

    fn from(_: AllocError) -> Self {
        CountsFault::NoMemory
    }
}

impl Refuses for CountsFault {
    ghost use Rattle.implications_command.specs.CountsFaults.{counts_refusal};

    ghost refusal = { counts_refusal };

    fn refuse(&self, alloc: Global) -> Result<Reply, AllocError> {
        match self {
            CountsFault::TooLong => Ok(Reply {
                outcome: Outcome::Second,
                text: CountFault::size_line(alloc)?,
                object: count_size(alloc)?,
            }),
            CountsFault::Faulty(fault) => Ok(Reply {
                outcome: Outcome::Second,
                text: fault.line(alloc)?,
                object: count_fault(alloc, fault)?,
            }),
            CountsFault::NoMemory => Err(AllocError),
        }
    }
}
