//! The value of digits.

ghost use Rattle.std.specs.Prelude.{◌≡◌};
ghost use Rattle.count_rows.specs.Numbers.{count_in};

/// The most that the counts of a table may come to.
pub const MOST: u64 = 1000000000000000;

/// The value of one or more decimal digits, up to 10^15.
pub fn read_count(field: &[u8]) -> Option<u64>
    ensures { result ≡ count_in field.now }
{
    if field.is_empty() {
        return None;
    }
    let mut value: u64 = 0;
    for b in field {
        if *b < b'0' || *b > b'9' {
            return None;
        }
        if value <= MOST {
            value = 10 * value + u64::from(*b - b'0');
        }
    }
    if value <= MOST { Some(value) } else { None }
}
