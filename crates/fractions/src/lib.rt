//! Fractions of natural numbers, for definitions and proofs: no code runs here.
//!
//! `specs/Fractions.antt` has the fraction, its equality, sums, products and quotients. Equality
//! says that neither bottom is 0, so nothing is equal to 0/0. `proofs/FractionLaws.antt` has the
//! laws as lemmas.
#![tactic(auto)]

ghost use Rattle.fractions.specs.Laws.{EqualIsReflexive, EqualIsSymmetric, EqualIsTransitive, NothingEqualsOverZero, EqualWholesAreOne, ScaledIsEqual};
ghost use Rattle.fractions.specs.Laws.{SumsAreEqual, LongSumsAreEqual, ProductsAreEqual, QuotientsAreEqual};
ghost use Rattle.fractions.specs.Laws.{AddIsCommutative, AddIsAssociative, AddZero, MulIsCommutative, MulIsAssociative, MulOne, MulDistributes, QuotientIsUndone};

/// The laws of fractions.
///
/// Equality is an equivalence that sums, products and quotients keep, and the operations are those
/// of numbers.
pub fn laws()
    ensures reflexive { EqualIsReflexive }
    ensures symmetric { EqualIsSymmetric }
    ensures transitive { EqualIsTransitive }
    ensures over_zero { NothingEqualsOverZero }
    ensures wholes { EqualWholesAreOne }
    ensures scaled { ScaledIsEqual }

    // Equal fractions may stand for each other.
    ensures sums { SumsAreEqual }
    ensures long_sums { LongSumsAreEqual }
    ensures products { ProductsAreEqual }
    ensures quotients { QuotientsAreEqual }

    // Sums and products may be reordered.
    ensures add_commutes { AddIsCommutative }
    ensures add_associates { AddIsAssociative }
    ensures add_zero { AddZero }
    ensures mul_commutes { MulIsCommutative }
    ensures mul_associates { MulIsAssociative }
    ensures mul_one { MulOne }

    // Products and quotients are those of numbers.
    ensures distributes { MulDistributes }
    ensures undone { QuotientIsUndone }
{}
