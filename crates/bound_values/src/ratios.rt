//! Fractions of counts and of their products.

ghost use Rattle.std.specs.Prelude.{ℕ, ◌≡◌, ◌≤◌, ◌*◌, ◌^◌, nat_le};

use crate::comparing::is_at_most;
use natural_bounds::End;

/// The fraction top / bottom of counts, or of sums of products of two of them. It is at most 4.
#[derive(Clone, Copy, Debug, PartialEq, Eq)]
pub struct Ratio {
    pub top: u128,
    pub bottom: u128,
    pub ghost positive: { 1 ≤ bottom },
    pub ghost at_most_four: { top ≤ 4 * bottom },
    pub ghost small: { bottom ≤ 10 ^ 30 },
}

/// The most that a count is.
const MOST_COUNT: u128 = 1_000_000_000_000_000;

impl Ratio {
    ghost use Rattle.fractions.specs.Fractions.{over};
    ghost use Rattle.natural_bounds.specs.Orders.{trivial, tighter};
    ghost use Rattle.bound_values.specs.Values.{fraction_of};

    /// The fraction top / bottom.
    pub fn new(top: u128, bottom: u128) -> Ratio
        requires positive { 1 ≤ bottom }
        requires at_most_four { top ≤ 4 * bottom }
        requires small { bottom ≤ 10 ^ 30 }
        ensures { fraction_of result ≡ over top bottom }
    {
        Ratio { top, bottom }
    }

    /// What bounds each probability.
    pub fn trivial(end: End) -> Ratio
        ensures { fraction_of result ≡ trivial end }
    {
        match end {
            End::AtLeast => Ratio { top: 0, bottom: 1 },
            End::AtMost => Ratio { top: 1, bottom: 1 },
        }
    }

    /// Whether this is at most the other, as numbers.
    pub fn is_at_most(self, other: Ratio) -> bool
        ensures { result ≡ nat_le (self.top * other.bottom) (other.top * self.bottom) }
    {
        if self.bottom <= MOST_COUNT && other.bottom <= MOST_COUNT {
            self.top * other.bottom <= other.top * self.bottom
        } else {
            is_at_most(self.top, self.bottom, other.top, other.bottom)
        }
    }

    /// The tighter of two bounds.
    pub fn tighter(self, end: End, other: Ratio) -> Ratio
        ensures { fraction_of result ≡ tighter end (fraction_of self) (fraction_of other) }
    {
        match end {
            End::AtLeast => { if self.is_at_most(other) { other } else { self } }
            End::AtMost => { if other.is_at_most(self) { other } else { self } }
        }
    }
}
