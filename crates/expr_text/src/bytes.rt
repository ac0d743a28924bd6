//! The classes of bytes.

ghost use Rattle.std.specs.Prelude.{◌≡◌, ◌≤◌, length};
ghost use Rattle.std.specs.List.{prefix_len};
ghost use Rattle.expr_text.specs.Bytes.{in_class};

use answer_text::names::{is_name_byte, is_white};

/// A class of bytes.
#[derive(Clone, Copy, Debug, PartialEq, Eq)]
pub enum Class {
    /// White space: space, tab, carriage return or line feed.
    White,
    /// What bare names are made of.
    Plain,
    /// What may stand between quotation marks.
    Line,
    /// A digit.
    Digit,
}

fn is_in(class: Class, byte: u8) -> bool
    ensures { result ≡ in_class class byte }
{
    match class {
        Class::White => is_white(byte),
        Class::Plain => { is_name_byte(byte) && !matches!(byte, b'(' | b')' | b'|' | b'*' | b'/') }
        Class::Line => !matches!(byte, b'"' | b'\r' | b'\n'),
        Class::Digit => byte >= b'0' && byte <= b'9',
    }
}

/// How many bytes at the front are in the class.
pub fn run_len(class: Class, bytes: &[u8]) -> usize
    ensures run { result ≡ prefix_len (in_class class) bytes.now }
    ensures within { result ≤ length bytes.now }
{
    for (i, byte) in bytes.iter().enumerate() {
        if !is_in(class, *byte) {
            return i;
        }
    }
    bytes.len()
}
