//! What is wrong with a certificate.

ghost use Rattle.std.specs.Prelude.{◌≡◌, IfOk, OnOk};
ghost use Rattle.replies.specs.Vocabulary.{told_of};
ghost use Rattle.check_command.specs.Refusals.{cert_fault_told};
ghost use Rattle.check_command.specs.declared.fault.CertificateFault.TheVariants.{NoMemory};

use certificate::CertFault;
use check_json::{certificate_fault, certificate_size};
use replies::{Outcome, Reply};
use std::alloc::{AllocError, Global};
use told::Refuses;

/// What is wrong with a certificate.
#[derive(Drop)]
pub enum CertificateFault {
    /// It has more than 67,108,864 bytes.
    TooLong,
    /// Its text has a fault.
    Faulty(CertFault),
    /// Memory was refused.
    NoMemory,
}

impl From<AllocError> for CertificateFault {
    ghost from_gives = { λ _ e. e ≡ NoMemory };

    fn from(_: AllocError) -> Self {
        CertificateFault::NoMemory
    }
}

impl Refuses for CertificateFault {
    ghost use Rattle.check_command.specs.CertificateFaults.{certificate_refusal};

    ghost refusal = { certificate_refusal };

    fn refuse(&self, alloc: Global) -> Result<Reply, AllocError> {
        match self {
            CertificateFault::TooLong => Ok(Reply {
                outcome: Outcome::Second,
                text: CertFault::size_line(alloc)?,
                object: certificate_size(alloc)?,
            }),
            CertificateFault::Faulty(fault) => refuse_certificate(alloc, fault),
            CertificateFault::NoMemory => Err(AllocError),
        }
    }
}

/// The reply to a certificate whose text has a fault; want of memory has none.
pub fn refuse_certificate(alloc: Global, fault: &CertFault) -> Result<Reply, AllocError>
    ensures outcome { IfOk result (λ r. r.outcome ≡ Outcome.Second) }
    ensures told { IfOk result (λ r. told_of r ≡ cert_fault_told fault.now) }
    ensures memory { OnOk result (fault.now ≡ CertFault.NoMemory → ⊥) }
{
    Ok(Reply {
        outcome: Outcome::Second,
        text: fault.line(alloc)?,
        object: certificate_fault(alloc, fault)?,
    })
}
