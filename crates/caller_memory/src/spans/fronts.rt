// Fronts of bytes.
ghost use Rattle.std.specs.Prelude.{◌≡◌, List, ℕ, length, take, drop, min};

/// Copies what fits, and gives its length. What stands behind it stays.
pub fn copy_front(from: &[u8], into: &mut [u8]) -> usize
    ensures count { result ≡ min (length from.now) (length into.old) }
    ensures bytes { take result into.new ≡ take result from.now }
    ensures rest { drop result into.new ≡ drop result into.old }
{
    let count = from.len().min(into.len());
    into[..count].copy_from_slice(&from[..count]);
    count
}
