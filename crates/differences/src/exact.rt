//! Differences of exact fractions.

ghost use Rattle.std.specs.Prelude.{ℕ, ◌≡◌, ◌≤◌, ◌<◌, ◌-◌, ◌*◌, ◌^◌, IfOk, IfErr, OnErr};
ghost use Rattle.quantity.specs.Kinds.{pair};
ghost use Rattle.quantity.specs.Vocabulary.{lowest};

use crate::difference::Difference;
use quantity::{Exact, Quantity, QuantityFault};

/// The greatest number that a quantity has, 2^127 - 1.
const MOST: u128 = 170141183460469231731687303715884105727;

/// The fraction p / q in lowest terms: the quotient of two whole numbers.
fn reduced(p: u128, q: u128) -> Exact
    requires positive { 1 ≤ q }
    requires top { p ≤ 2 ^ 127 - 1 }
    requires bottom { q ≤ 2 ^ 127 - 1 }
    ensures { pair result.p result.q ≡ lowest p q }
{
    let top = Exact { p, q: 1 };
    let bottom = Exact { p: q, q: 1 };
    match top.div(&bottom) {
        Ok(quotient) => quotient,
        Err(_) => unreachable!(),
    }
}

/// The product, unless it is too wide.
fn product(a: u128, b: u128) -> Result<u128, QuantityFault>
    ensures value { IfOk result (λ c. c ≡ a * b) }
    ensures fits { IfOk result (λ c. c ≤ 2 ^ 127 - 1) }
    ensures fault { IfErr result (λ e. e ≡ QuantityFault.TooWide) }
    ensures wide { OnErr result (2 ^ 127 - 1 < a * b) }
{
    match a.checked_mul(b) {
        Some(c) if c <= MOST => Ok(c),
        _ => Err(QuantityFault::TooWide),
    }
}

impl Difference for Exact {
    ghost use Rattle.quantity.specs.Vocabulary.{Equals};
    ghost use Rattle.differences.specs.Kinds.{exact_minus};
    ghost use Rattle.differences.specs.Laws.Exact.{exact_difference_lawful};

    ghost difference = { exact_minus };

    ghost encloses = { Equals };

    fn subtract(&self, other: &Exact) -> Result<Option<Exact>, QuantityFault> {
        // The bottoms without their common divisor bring each other to the least common multiple.
        let bottoms = reduced(self.q, other.q);
        let bottom = product(bottoms.p, other.q)?;
        let first = product(self.p, bottoms.q)?;
        let second = product(other.p, bottoms.p)?;
        if first < second {
            return Ok(None);
        }
        Ok(Some(reduced(first - second, bottom)))
    }

    ghost lawful_difference = { exact_difference_lawful };
}
