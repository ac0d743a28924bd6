//! Exact fractions in lowest terms.

ghost use Rattle.std.specs.Prelude.{ℕ, ◌≡◌, ◌≤◌, ◌-◌, ◌^◌, ◌+◌, ◌*◌, cond, leb};
ghost use Rattle.quantity.specs.Divisors.{gcd_of};
ghost use Rattle.quantity.specs.Kinds.{most};

use crate::divisors::gcd;
use crate::fault::QuantityFault;
use crate::kind::Quantity;
use crate::limit::{product, sum};
use std::alloc::{AllocError, Global};

/// The fraction p / q in lowest terms: 0 is 0 / 1.
#[derive(Clone, Copy, Debug, PartialEq, Eq)]
pub struct Exact {
    pub p: u128,
    pub q: u128,
    pub ghost positive: { 1 ≤ q },
    pub ghost top: { p ≤ 2 ^ 127 - 1 },
    pub ghost bottom: { q ≤ 2 ^ 127 - 1 },
    pub ghost lowest: { gcd_of p q ≡ 1 },
}

impl Exact {
    ghost use Rattle.quantity.specs.Kinds.{pair, gives};
    ghost use Rattle.quantity.specs.Exacts.{lowest, product_of};

    /// The fraction p / q.
    fn reduced(p: u128, q: u128) -> Exact
        requires positive { 1 ≤ q }
        requires top { p ≤ 2 ^ 127 - 1 }
        requires bottom { q ≤ 2 ^ 127 - 1 }
        ensures { pair result.p result.q ≡ lowest p q }
    {
        let g = gcd(p, q);
        Exact { p: p / g, q: q / g }
    }

    /// The product of two fractions in lowest terms.
    fn times(p: u128, q: u128, r: u128, s: u128) -> Result<Exact, QuantityFault>
        requires positive { (1 ≤ q) × (1 ≤ s) }
        requires lowest { (gcd_of p q ≡ 1) × (gcd_of r s ≡ 1) }
        ensures { gives (λ (e : Exact). pair e.p e.q) result ≡ product_of p q r s }
    {
        let a = gcd(p, s);
        let b = gcd(r, q);
        let top = product(p / a, r / b)?;
        let bottom = product(q / b, s / a)?;
        Ok(Exact { p: top, q: bottom })
    }
}

impl Quantity for Exact {
    ghost use Rattle.quantity.specs.Kinds.{pair};
    ghost use Rattle.quantity.specs.Exacts.{exact, Equals};
    ghost use Rattle.quantity.specs.Laws.Exact.{exact_lawful};

    ghost kind = { exact };

    ghost numbers = { λ e. pair e.p e.q };

    ghost covers = { Equals };

    fn from_ratio(p: u64, q: u64) -> Exact {
        Exact::reduced(p as u128, q as u128)
    }

    fn add(&self, other: &Exact) -> Result<Exact, QuantityFault> {
        let g = gcd(self.q, other.q);
        let left = self.q / g;
        let right = other.q / g;
        let bottom = product(left, other.q)?;
        let first = product(self.p, right)?;
        let second = product(other.p, left)?;
        let top = sum(first, second)?;
        Ok(Exact::reduced(top, bottom))
    }

    fn mul(&self, other: &Exact) -> Result<Exact, QuantityFault> {
        Exact::times(self.p, self.q, other.p, other.q)
    }

    fn div(&self, other: &Exact) -> Result<Exact, QuantityFault> {
        if other.p == 0 {
            return Err(QuantityFault::ZeroBelow);
        }
        Exact::times(self.p, self.q, other.q, other.p)
    }

    fn print(&self, alloc: Global, out: &mut Vec<u8>) -> Result<(), AllocError> {
        let text = format!(in alloc; "{}/{}", self.p, self.q)?;
        out.extend_from_slice(text.as_bytes())
    }

    ghost lawful = { exact_lawful };
}
