//! The order of fractions whose products are too wide.

ghost use Rattle.std.specs.Prelude.{ℕ, ◌≡◌, ◌≤◌, ◌*◌, nat_le};

/// Whether a / b is at most c / d, by Euclid's steps: nothing is multiplied.
pub(crate) fn is_at_most(a: u128, b: u128, c: u128, d: u128) -> bool
    requires left { 1 ≤ b }
    requires right { 1 ≤ d }
    ensures { result ≡ nat_le (a * d) (c * b) }
{
    let left = a / b;
    let right = c / d;
    if left != right {
        return left < right;
    }
    let left_rest = a % b;
    let right_rest = c % d;
    if left_rest == 0 {
        return true;
    }
    if right_rest == 0 {
        return false;
    }
    is_at_most(d, right_rest, b, left_rest)
}
