//! What the values have to do with fractions, and with models.

ghost use Rattle.factor_values.specs.Laws.{FactorsAreCovered, MatchedCoversFactors};

use quantity::Quantity;

/// What the values have to do with fractions, and with models.
pub fn laws<Q: Quantity>()
    ensures covered { FactorsAreCovered Q.kind Q.covers }
    ensures matched { MatchedCoversFactors Q.kind Q.covers }
{}
