//! Differences that may be the largest.

ghost use Rattle.std.specs.Prelude.{ℕ, ◌≡◌, ◌<◌, ◌≤◌, ◌*◌, ◌/◌, ◌^◌};
ghost use Rattle.std.specs.Bool.{OnTrue, OnFalse};
ghost use Rattle.std.specs.Int.{abs_diff};
ghost use Rattle.implied_differences.specs.Candidates.{IsAhead, IsNotAhead, IsOutOfReach};

/// Two products and how far they are apart, with the number of their cell in order.
#[derive(Clone, Copy)]
pub struct Candidate {
    pub left: u128,
    pub right: u128,
    pub distance: u128,
    pub number: usize,
}

/// The product of two sums of counts.
fn product(x: u64, y: u64) -> u128
    requires x { x ≤ 10 ^ 15 }
    requires y { y ≤ 10 ^ 15 }
    ensures { result ≡ x * y }
{
    x as u128 * y as u128
}

impl Candidate {
    /// What each cell with a difference is ahead of.
    pub fn none() -> Candidate
        ensures left { result.left ≡ 0 }
        ensures right { result.right ≡ 0 }
        ensures distance { result.distance ≡ 0 }
        ensures number { result.number ≡ 0 }
    {
        Candidate {
            left: 0,
            right: 0,
            distance: 0,
            number: 0,
        }
    }

    /// The cell of a number: N(a,b,W), N(W), N(a,W) and N(b,W) make its products.
    pub fn new(whole: u64, given: u64, first: u64, second: u64, number: usize) -> Candidate
        requires whole { whole ≤ 10 ^ 15 }
        requires given { given ≤ 10 ^ 15 }
        requires first { first ≤ 10 ^ 15 }
        requires second { second ≤ 10 ^ 15 }
        ensures left { result.left ≡ whole * given }
        ensures right { result.right ≡ first * second }
        ensures distance { result.distance ≡ abs_diff (whole * given) (first * second) }
        ensures number { result.number ≡ number }
    {
        let left = product(whole, given);
        let right = product(first, second);
        let distance = left.abs_diff(right);
        Candidate {
            left,
            right,
            distance,
            number,
        }
    }

    /// Whether its products are further apart than those of the other one, or as far and its number is the lower one.
    pub fn is_ahead(&self, other: &Candidate) -> bool
        ensures yes { OnTrue result (IsAhead self.now other.now) }
        ensures no { OnFalse result (IsNotAhead self.now other.now) }
    {
        if self.distance > other.distance {
            return true;
        }
        if self.distance < other.distance {
            return false;
        }
        self.number < other.number
    }
    /// Whether a cell with at least this number may be ahead, where N(W) is at most `most`. Its products are no further
    /// apart than a quarter of the square of N(W).
    pub fn may_be_passed(&self, most: u64, number: usize) -> bool
        requires { most ≤ 10 ^ 15 }
        ensures no { OnFalse result (IsOutOfReach self.now (most * most / 4) number) }
    {
        let furthest = product(most, most) / 4;
        if number < self.number {
            return furthest >= self.distance;
        }
        furthest > self.distance
    }
    /// What the distance of a cell with at least this number has to reach for the cell to be ahead, or the greatest `u64`.
    pub fn limit(&self, number: usize) -> u64
        ensures { (furthest : ℕ) → furthest < result → IsOutOfReach self.now furthest number }
    {
        let limit = if number < self.number {
            self.distance
        } else {
            self.distance.saturating_add(1)
        };
        if limit > u64::MAX as u128 {
            return u64::MAX;
        }
        limit as u64
    }
}
