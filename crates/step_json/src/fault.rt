//! Why a JSON value isn't read.

ghost use Rattle.std.specs.Prelude.{◌≡◌, Err, Result};
ghost use Rattle.step_json.specs.declared.fault.ValueFault.TheVariants.{Name, NoMemory};
ghost use Rattle.step_json.specs.Reading.{Fails};

use mixed_graph::Text;
use std::alloc::{AllocError, AllocFailed, Global};

/// Why a JSON value isn't read.
#[derive(Drop)]
pub enum ValueFault {
    /// Something has another form than what stands there.
    Form,
    /// Steps nest more than 60 deep.
    TooDeep,
    /// A text stands in place of a name, and isn't one.
    Name(Text),
    /// Memory was refused.
    NoMemory,
}

impl From<AllocError> for ValueFault {
    ghost from_gives = { λ _ e. e ≡ NoMemory };

    fn from(_: AllocError) -> Self {
        ValueFault::NoMemory
    }
}

impl<T: Drop> From<AllocFailed<T>> for ValueFault {
    ghost from_gives = { λ _ e. e ≡ NoMemory };

    fn from(_: AllocFailed<T>) -> Self {
        ValueFault::NoMemory
    }
}
