//! What a kind of quantity offers.

ghost use Rattle.std.specs.Prelude.{ℕ, ◌≡◌, ◌≤◌, ◌^◌, ◌++◌, OnOk, OnErr};
ghost use Rattle.fractions.specs.Vocabulary.{Fraction};
ghost use Rattle.quantity.specs.Kinds.{Pair, Kind, gives};
ghost use Rattle.quantity.specs.Lawful.{IsLawful};

use crate::fault::QuantityFault;
use std::alloc::{AllocError, Global};

/// Numbers that cover fractions, with the operations of one kind.
pub trait Quantity: Copy {
    /// What the operations make of two numbers, and the text of a quantity.
    ghost kind: { Kind };

    /// The two numbers.
    ghost numbers: { Self → Pair };

    /// The fractions that two numbers stand for.
    ghost covers: { Pair → Fraction → Type 0 };

    /// The quantity of p / q.
    fn from_ratio(p: u64, q: u64) -> Self
        requires positive { 1 ≤ q }
        requires at_most_one { p ≤ q }
        requires small { q ≤ 10 ^ 15 }
        ensures { numbers result ≡ kind.from_ratio p q };

    /// The sum, or why there is none.
    fn add(&self, other: &Self) -> Result<Self, QuantityFault>
        ensures { gives numbers result ≡ kind.add (numbers self.now) (numbers other.now) };

    /// The product, or why there is none.
    fn mul(&self, other: &Self) -> Result<Self, QuantityFault>
        ensures { gives numbers result ≡ kind.mul (numbers self.now) (numbers other.now) };

    /// The quotient, or why there is none.
    fn div(&self, other: &Self) -> Result<Self, QuantityFault>
        ensures { gives numbers result ≡ kind.div (numbers self.now) (numbers other.now) };

    /// Appends the text to `out`. Where memory runs out, `out` is as before.
    fn print(&self, alloc: Global, out: &mut Vec<u8>) -> Result<(), AllocError>
        ensures ok { OnOk result (out.new.items ≡ out.old.items ++ kind.text (numbers self.now)) }
        ensures err { OnErr result (out.new.items ≡ out.old.items) };

    /// Each result covers the true fraction.
    ghost lawful: { IsLawful kind covers };
}
