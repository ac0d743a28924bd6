//! What the factors have to do with the formula of a nested effect, and with models.

ghost use Rattle.natural_values.specs.Factors.{FactorsEqualNatural};
ghost use Rattle.natural_values.specs.Right.{FactorsCoverNested};

use quantity::Quantity;

/// The factors have the formula's value, and over counts they cover the nested effect.
pub fn laws<Q: Quantity>()
    ensures equal { FactorsEqualNatural }
    ensures covers { FactorsCoverNested Q.kind Q.covers }
{}
