//! What a kind of quantity offers of which differences are had.

ghost use Rattle.std.specs.Prelude.{◌≡◌};
ghost use Rattle.fractions.specs.Vocabulary.{Fraction};
ghost use Rattle.quantity.specs.Kinds.{Pair};
ghost use Rattle.differences.specs.Kinds.{Subtraction, gives_some};
ghost use Rattle.differences.specs.Lawful.{IsLawfulDifference};

use quantity::{Quantity, QuantityFault};

/// Quantities of which differences are had too.
pub trait Difference: Quantity {
    /// What the subtraction makes of two numbers.
    ghost difference: { Subtraction };

    /// The fractions that two numbers enclose. Of a difference it isn't known whether it is 0.
    ghost encloses: { Pair → Fraction → Type 0 };

    /// What is left where `other` is taken off: none where that is below 0; or why there is none.
    fn subtract(&self, other: &Self) -> Result<Option<Self>, QuantityFault>
        ensures { gives_some Self.numbers result ≡ difference (Self.numbers self.now) (Self.numbers other.now) };

    /// The result encloses the true difference.
    ghost lawful_difference: { IsLawfulDifference Self.kind difference Self.covers encloses };
}
