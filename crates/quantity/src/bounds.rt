//! Bounds in units of 10^-18.

ghost use Rattle.std.specs.Prelude.{ℕ, ◌≡◌, ◌≤◌, ◌-◌, ◌^◌, IfOk, string_bytes};
ghost use Rattle.quantity.specs.Texts.{units_text};

use crate::fault::QuantityFault;
use crate::kind::Quantity;
use crate::limit::{product, sum};
use std::alloc::{AllocError, Global};

/// How many units are 1.
const UNIT: u128 = 1_000_000_000_000_000_000;

/// What lies from `lo` to `hi`, in units of 10^-18.
#[derive(Clone, Copy, Debug, PartialEq, Eq)]
pub struct Bounds {
    pub lo: u128,
    pub hi: u128,
    pub ghost ordered: { lo ≤ hi },
    pub ghost most: { hi ≤ 2 ^ 127 - 1 },
}

/// The text of n units: the whole part, a point and 18 digits.
fn units(alloc: Global, n: u128) -> Result<String, AllocError>
    ensures { IfOk result (λ text. string_bytes text ≡ units_text n) }
{
    format!(in alloc; "{}.{:018}", n / UNIT, n % UNIT)
}

impl Quantity for Bounds {
    ghost use Rattle.quantity.specs.Kinds.{pair};
    ghost use Rattle.quantity.specs.Intervals.{bounds, Covers};
    ghost use Rattle.quantity.specs.Laws.Interval.{bounds_lawful};

    ghost kind = { bounds };

    ghost numbers = { λ b. pair b.lo b.hi };

    ghost covers = { Covers };

    fn from_ratio(p: u64, q: u64) -> Bounds {
        let top = p as u128 * UNIT;
        let bottom = q as u128;
        Bounds {
            lo: top / bottom,
            hi: (top + (bottom - 1)) / bottom,
        }
    }

    fn add(&self, other: &Bounds) -> Result<Bounds, QuantityFault> {
        let hi = sum(self.hi, other.hi)?;
        Ok(Bounds {
            lo: self.lo + other.lo,
            hi,
        })
    }

    fn mul(&self, other: &Bounds) -> Result<Bounds, QuantityFault> {
        let hi = product(self.hi, other.hi)?;
        Ok(Bounds {
            lo: self.lo * other.lo / UNIT,
            hi: (hi + (UNIT - 1)) / UNIT,
        })
    }

    fn div(&self, other: &Bounds) -> Result<Bounds, QuantityFault> {
        if other.hi == 0 {
            return Err(QuantityFault::ZeroBelow);
        }
        if other.lo == 0 {
            return Err(QuantityFault::TooFine);
        }
        let hi = product(self.hi, UNIT)?;
        Ok(Bounds {
            lo: self.lo * UNIT / other.hi,
            hi: (hi + (other.lo - 1)) / other.lo,
        })
    }

    fn print(&self, alloc: Global, out: &mut Vec<u8>) -> Result<(), AllocError> {
        let lower = units(alloc, self.lo)?;
        let upper = units(alloc, self.hi)?;
        let text = format!(in alloc; "from {lower} to {upper}")?;
        out.extend_from_slice(text.as_bytes())
    }

    ghost lawful = { bounds_lawful };
}
