//! Keys of short names.

ghost use Rattle.std.specs.Prelude.{◌≡◌, ◌<◌, ◌≤◌, ◌+◌, ◌*◌, length};
ghost use Rattle.mixed_graph.specs.NameKeys.{AreBytes, IsKeyed, digits_on};

/// What the length of a name counts for in its key.
const LENGTH: u64 = 72057594037927936;

/// The key of a name: its length, and then its bytes, as digits to the base 256. A name of more than seven bytes has the key 0.
#[inline(always)]
pub fn key_of(name: &[u8]) -> u64
    ensures { IsKeyed name.now result }
{
    if name.len() > 7 {
        return 0;
    }
    key_of_digits(name, digits(name))
}

/// The same where the digits are known, which those of a long name need not be.
#[inline(always)]
pub fn key_of_digits(name: &[u8], digits: u64) -> u64
    requires { length name.now ≤ 7 → (digits ≡ digits_on 0 name.now) × AreBytes name.now }
    ensures { IsKeyed name.now result }
{
    if name.len() > 7 {
        return 0;
    }
    name.len() as u64 * LENGTH + digits
}

/// The bytes as digits to the base 256.
#[inline(always)]
fn digits(name: &[u8]) -> u64
    requires { length name.now ≤ 7 }
    ensures value { result ≡ digits_on 0 name.now }
    ensures bytes { AreBytes name.now }
{
    let mut number = 0;
    for byte in name {
        number = number * 256 + *byte as u64;
    }
    number
}

/// A number with a byte behind it as a further digit to the base 256, where it has at most seven. Of more digits the last eight are left.
#[inline(always)]
pub fn with_digit(number: u64, byte: u8) -> u64
    ensures digits { number < 72057594037927936 → result ≡ number * 256 + byte }
    ensures byte { byte < 256 }
{
    number.wrapping_mul(256).wrapping_add(byte as u64)
}
