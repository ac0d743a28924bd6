//! How names are printed: bare where they can be read back so, else between quotation marks; and the lines that say what is wrong.
//!
//! `push_name(&mut text, name)` writes a name.
mod lines;

ghost use Rattle.std.specs.Prelude.{◌≡◌, ◌++◌, OnOk};
ghost use Rattle.std.specs.List.{list_all};
ghost use Rattle.answer_text.specs.Printing.{is_white, is_edge_byte, is_sign, is_name_byte, is_plain_byte, is_bare, is_arrow, character_of, begins_with_arrow, is_plain, printed};

pub use lines::{refusal_line, second_line, with_name, with_number};
use std::alloc::AllocError;

/// Whether the byte is white space of graph text: space, tab, carriage return or line feed.
pub fn is_white(byte: u8) -> bool
    ensures { result ≡ is_white byte }
{
    matches!(byte, b' ' | b'\t' | b'\r' | b'\n')
}

/// Whether the byte is one of edges: `<`, `>`, `-` or `@`.
pub fn is_edge_byte(byte: u8) -> bool
    ensures { result ≡ is_edge_byte byte }
{
    matches!(byte, b'<' | b'>' | b'-' | b'@')
}

/// Whether the byte is a sign of graph text: `{ } [ ] ; = ,`.
pub fn is_sign(byte: u8) -> bool
    ensures { result ≡ is_sign byte }
{
    matches!(byte, b'{' | b'}' | b'[' | b']' | b';' | b'=' | b',')
}

/// Whether the byte may stand in a bare name of graph text.
pub fn is_name_byte(byte: u8) -> bool
    ensures { result ≡ is_name_byte byte }
{
    !(is_white(byte) || is_edge_byte(byte) || is_sign(byte) || byte == b'"')
}

/// Whether the byte may stand in a name that is printed bare.
fn is_plain_byte(byte: u8) -> bool
    ensures { result ≡ is_plain_byte byte }
{
    is_name_byte(byte) && !matches!(byte, b'(' | b')' | b'|' | b'*' | b'/')
}

fn all_plain(name: &[u8]) -> bool
    ensures { result ≡ list_all is_plain_byte name.now }
{
    name.iter().all(|b| is_plain_byte(*b))
}

/// Whether a name may stand bare in a formula.
fn is_bare(name: &[u8]) -> bool
    ensures { result ≡ is_bare name.now }
{
    let [first, ..] = name else {
        return false;
    };
    if *first == b'#' {
        return false;
    }
    all_plain(name)
}

/// Whether the character is an arrow of Unicode.
fn is_arrow(character: u32) -> bool
    ensures { result ≡ is_arrow character }
{
    matches!(character, 0x2190..=0x21FF | 0x27F0..=0x27FF | 0x2900..=0x297F)
}

/// The character whose UTF-8 is the byte 0xE2 and these two.
fn character_of(second: u8, third: u8) -> u32
    ensures { result ≡ character_of second third }
{
    0x2000 + second.saturating_sub(0x80) as u32 * 64 + third.saturating_sub(0x80) as u32
}

/// Whether a text begins with an arrow of Unicode: U+2190 to U+21FF, U+27F0 to U+27FF or U+2900 to U+297F.
pub fn begins_with_arrow(text: &[u8]) -> bool
    ensures { result ≡ begins_with_arrow text.now }
{
    match text {
        [0xE2, second, third, ..] => is_arrow(character_of(*second, *third)),
        _ => false,
    }
}

/// Whether a name is printed bare.
pub fn is_plain(name: &[u8]) -> bool
    ensures { result ≡ is_plain name.now }
{
    is_bare(name) && !begins_with_arrow(name)
}

/// Appends a name as it is printed. At an error what was appended is open.
pub fn push_name(out: &mut Vec<u8>, name: &[u8]) -> Result<(), AllocError>
    ensures { OnOk result (out.new.items ≡ out.old.items ++ printed name.now) }
{
    if is_plain(name) {
        out.extend_from_slice(name)?;
        return Ok(());
    }
    out.push(b'"')?;
    out.extend_from_slice(name)?;
    out.push(b'"')?;
    Ok(())
}
