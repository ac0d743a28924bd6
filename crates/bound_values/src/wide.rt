//! Quantities of ratios whose parts are wider than 64 bits.

ghost use Rattle.std.specs.Prelude.{ℕ, ◌≡◌, ◌<◌, ◌≤◌, ◌+◌, ◌*◌, ◌^◌, ◌==◌, if◌then◌else◌};

use crate::ratios::Ratio;
use quantity::{Bounds, Exact, Quantity};

/// A kind of quantity that each ratio has.
pub trait OfRatio: Quantity {
    ghost use Rattle.bound_values.specs.Values.{fraction_of, in_kind};

    /// The quantity of a ratio.
    fn of_ratio(ratio: Ratio) -> Self
        ensures { Self.numbers result ≡ in_kind Self.kind (fraction_of ratio) };
}

impl OfRatio for Exact {
    fn of_ratio(ratio: Ratio) -> Exact {
        let top = Exact { p: ratio.top, q: 1 };
        let bottom = Exact {
            p: ratio.bottom,
            q: 1,
        };
        match top.div(&bottom) {
            Ok(quotient) => quotient,
            Err(_) => unreachable!(),
        }
    }
}

impl OfRatio for Bounds {
    fn of_ratio(ratio: Ratio) -> Bounds {
        let units = units_over(ratio.top, ratio.bottom);
        Bounds {
            lo: units.whole,
            hi: units.up(),
        }
    }
}

/// So many units, and a rest that is less than one.
#[derive(Clone, Copy)]
struct Units {
    whole: u128,
    rest: u128,
}

impl Units {
    /// Rounded up.
    fn up(self) -> u128
        requires { self.whole ≤ 5 * 10 ^ 18 }
        ensures { result ≡ (if self.rest == 0 then self.whole else (self.whole + 1)) }
    {
        if self.rest == 0 {
            self.whole
        } else {
            self.whole + 1
        }
    }
}

/// How much a step of a long division multiplies by: three steps give 18 digits.
const STEP: u128 = 1_000_000;

/// top / bottom in units of 10^-18, by long division, six digits at a time.
fn units_over(top: u128, bottom: u128) -> Units
    requires positive { 1 ≤ bottom }
    requires at_most_four { top ≤ 4 * bottom }
    requires small { bottom ≤ 10 ^ 30 }
    ensures units { top * 10 ^ 18 ≡ result.whole * bottom + result.rest }
    ensures rest { result.rest < bottom }
    ensures few { result.whole ≤ 5 * 10 ^ 18 }
{
    let first = top * STEP;
    let second = first % bottom * STEP;
    let third = second % bottom * STEP;
    Units {
        whole: (first / bottom * STEP + second / bottom) * STEP + third / bottom,
        rest: third % bottom,
    }
}
