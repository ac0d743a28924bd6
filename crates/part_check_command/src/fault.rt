//! Why a certificate isn't answered.

ghost use Rattle.std.specs.Prelude.{◌≡◌};
ghost use Rattle.check_command.specs.declared.fault.CertificateFault.TheVariants.{NoMemory};
ghost use Rattle.part_check_command.specs.declared.fault.Fault.TheVariants.{Certificate};

use check_command::CertificateFault;
use natural_command::NaturalFault;
use replies::Reply;
use std::alloc::{AllocError, Global};
use told::Refuses;
use treated_command::TreatedFault;

/// Why a certificate isn't answered.
#[derive(Drop)]
pub enum Fault {
    /// It isn't read.
    Certificate(CertificateFault),
    /// The effect among the treated that it names can't be asked for.
    Treated(TreatedFault),
    /// The nested effect that it names can't be.
    Natural(NaturalFault),
}

impl From<AllocError> for Fault {
    ghost from_gives = { λ _ e. e ≡ Certificate NoMemory };

    fn from(_: AllocError) -> Self {
        Fault::Certificate(CertificateFault::NoMemory)
    }
}

impl Refuses for Fault {
    ghost use Rattle.part_check_command.specs.Faults.{part_check_refusal};

    ghost refusal = { part_check_refusal };

    fn refuse(&self, alloc: Global) -> Result<Reply, AllocError> {
        match self {
            Fault::Certificate(fault) => fault.refuse(alloc),
            Fault::Treated(fault) => fault.refuse(alloc),
            Fault::Natural(fault) => fault.refuse(alloc),
        }
    }
}
