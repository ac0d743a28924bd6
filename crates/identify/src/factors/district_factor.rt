//! The factor of a district, or where the procedure stops.

ghost use Rattle.std.specs.Prelude.{◌≡◌};
ghost use Rattle.identify.specs.declared.factors.district_factor.FactorFault.TheVariants.{NoMemory};

use do_derivation::{Lemma, Step};
use mixed_graph::VSet;
use prob_expr::Expr;
use std::alloc::{AllocError, AllocFailed};

/// The factor of a district, P(district | do(all others)), and how it is derived, where that is wanted.
#[derive(Drop)]
pub struct Factor {
    /// Its definitions, each of which may name earlier ones.
    pub defs: Vec<Expr>,
    /// A lemma for each definition.
    pub lemmas: Vec<Lemma>,
    /// Its expression, which may name its definitions.
    pub value: Expr,
    /// The steps that make the expression of P(district | do(all others)).
    pub steps: Vec<Step>,
}

/// Why a district has no factor.
#[derive(Debug, Drop)]
pub enum FactorFault {
    /// The procedure stops: this larger district leads to the district as a whole (line 5 of ID).
    Stopped(VSet),
    /// Memory was refused.
    NoMemory,
}

impl From<AllocError> for FactorFault {
    ghost from_gives = { λ _ e. e ≡ NoMemory };

    fn from(_: AllocError) -> Self {
        FactorFault::NoMemory
    }
}

impl<T: Drop> From<AllocFailed<T>> for FactorFault {
    ghost from_gives = { λ _ e. e ≡ NoMemory };

    fn from(_: AllocFailed<T>) -> Self {
        FactorFault::NoMemory
    }
}
