//! Quantities that cover fractions: exact fractions in lowest terms, and bounds in units of 10^-18.
//!
//! The result of each operation covers the true sum, product or quotient of what its operands cover.
//!
//! `Exact::from_ratio(1, 3)` is a third, and `Bounds::from_ratio(1, 3)` encloses it.
#![tactic(auto)]

ghost use Rattle.quantity.specs.Theorems.{EuclidIsGreatest, MultipleIsLeast, ZeroIsOverOne, BoundsEnclose, FractionsHaveEighteenDigits};

mod bounds;
mod divisors;
mod exact;
mod fault;
mod kind;
mod limit;

pub use bounds::Bounds;
pub use exact::Exact;
pub use fault::QuantityFault;
pub use kind::Quantity;

/// What holds of the definitions that the contracts cite, beside the law of `Quantity`.
pub fn laws()
    ensures greatest { EuclidIsGreatest }
    ensures least { MultipleIsLeast }
    ensures zero { ZeroIsOverOne }
    ensures enclose { BoundsEnclose }
    ensures digits { FractionsHaveEighteenDigits }
{}
