//! The line and the column of a byte in a text.

ghost use Rattle.std.specs.Prelude.{◌≡◌, ◌+◌, ◌≤◌, ◌<◌, length, take};
ghost use Rattle.answer_json.specs.Faults.{next_line, line_behind, next_column, column_behind};

/// The items before this one, or all where there are fewer.
pub fn front<T>(items: &[T], at: usize) -> &[T]
    ensures { result.now ≡ take at items.now }
{
    if at < items.len() {
        return &items[..at];
    }
    items
}

/// The line behind a byte.
fn next_line(line: u64, byte: u8) -> u64
    requires { line < 18446744073709551615 }
    ensures value { result ≡ next_line line byte }
    ensures most { result ≤ line + 1 }
{
    if byte == b'\n' { line + 1 } else { line }
}

/// The line behind these bytes, counted from 1.
pub fn line_behind(bytes: &[u8]) -> u64
    requires { length bytes.now < 18446744073709551615 }
    ensures { result ≡ line_behind 1 bytes.now }
{
    let mut line = 1;
    for byte in bytes {
        line = next_line(line, *byte);
    }
    line
}

/// The column behind a byte.
fn next_column(column: u64, byte: u8) -> u64
    requires some { 1 ≤ column }
    requires few { column < 18446744073709551615 }
    ensures value { result ≡ next_column column byte }
    ensures most { result ≤ column + 1 }
    ensures least { 1 ≤ result }
{
    if byte == b'\n' {
        return 1;
    }
    if 127 < byte && byte < 192 {
        return column;
    }
    column + 1
}

/// The column behind these bytes, counted from 1 in characters.
pub fn column_behind(bytes: &[u8]) -> u64
    requires { length bytes.now < 18446744073709551615 }
    ensures { result ≡ column_behind 1 bytes.now }
{
    let mut column = 1;
    for byte in bytes {
        column = next_column(column, *byte);
    }
    column
}
