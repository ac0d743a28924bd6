//! The laws of the factors.

ghost use Rattle.named_factors.specs.Named.{FactorsEqualNamed};
ghost use Rattle.named_factors.specs.Shapes.{TreatedIsSumOfTerms};
ghost use Rattle.named_factors.specs.Covers.{FactorsCoverAmong};

use quantity::Quantity;

/// The factors have the formula's value, and over counts they cover the effect among the treated.
pub fn laws<Q: Quantity>()
    ensures equal { FactorsEqualNamed }
    ensures shape { TreatedIsSumOfTerms }
    ensures covers { FactorsCoverAmong Q.kind Q.covers }
{}
