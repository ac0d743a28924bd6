//! Why parts aren't accepted.

ghost use Rattle.std.specs.Prelude.{◌≡◌};
ghost use Rattle.derived_parts.specs.Accepted.{fault_at};

use do_derivation::CheckFault;
use mixed_graph::VSet;

/// Why parts aren't accepted for districts. Parts are numbered from 0.
#[derive(Clone, Copy)]
pub enum PartsFault {
    /// The part of that number isn't there; that of this district is due.
    Missing { part: usize, due: VSet },
    /// No district is left for the part of that number.
    Further(usize),
    /// The part of that number isn't that of the district that is due.
    District { part: usize, due: VSet },
    /// The derivation of the part of that number has this first fault.
    Derivation { part: usize, fault: CheckFault },
    /// Memory was refused.
    NoMemory,
}

/// The fault of the parts where the derivation of that part has this one.
pub(crate) fn fault_at(part: usize, fault: CheckFault) -> PartsFault
    ensures { result ≡ fault_at part fault }
{
    match fault {
        CheckFault::Step { .. } | CheckFault::EndDiffers(_) | CheckFault::DoLeft => {
            PartsFault::Derivation { part, fault }
        }
        CheckFault::NoMemory => PartsFault::NoMemory,
    }
}
