//! Products and sums that fit their width.

ghost use Rattle.std.specs.Prelude.{ℕ, ◌≡◌, ◌+◌, ◌*◌, ◌-◌, ◌<◌, ◌≤◌, ◌^◌, IfOk, IfErr, OnErr};

use crate::fault::QuantityFault;

/// The greatest number that a quantity has, 2^127 - 1.
pub(crate) const MOST: u128 = 170141183460469231731687303715884105727;

/// The product, unless it is too wide.
pub(crate) fn product(a: u128, b: u128) -> Result<u128, QuantityFault>
    ensures value { IfOk result (λ c. c ≡ a * b) }
    ensures fits { IfOk result (λ c. c ≤ 2 ^ 127 - 1) }
    ensures fault { IfErr result (λ e. e ≡ QuantityFault.TooWide) }
    ensures wide { OnErr result (2 ^ 127 - 1 < a * b) }
{
    match a.checked_mul(b) {
        Some(c) if c <= MOST => Ok(c),
        _ => Err(QuantityFault::TooWide),
    }
}

/// The sum, unless it is too wide.
pub(crate) fn sum(a: u128, b: u128) -> Result<u128, QuantityFault>
    requires { a + b < 2 ^ 128 }
    ensures value { IfOk result (λ c. c ≡ a + b) }
    ensures fits { IfOk result (λ c. c ≤ 2 ^ 127 - 1) }
    ensures fault { IfErr result (λ e. e ≡ QuantityFault.TooWide) }
    ensures wide { OnErr result (2 ^ 127 - 1 < a + b) }
{
    let c = a + b;
    if c <= MOST {
        Ok(c)
    } else {
        Err(QuantityFault::TooWide)
    }
}
