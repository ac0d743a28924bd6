//! Names as LaTeX prints them.

ghost use Rattle.std.specs.Prelude.{◌≡◌, ◌++◌, ◌∷◌, [], OnOk};
ghost use Rattle.answer_text.specs.Printing.{printed};
ghost use Rattle.answer_text.specs.Notations.{byte_latex, is_special, escaped};

use crate::names::is_plain;
use std::alloc::AllocError;

/// Whether LaTeX wants a backslash before the character.
fn is_special(byte: u8) -> bool
    ensures { result ≡ is_special byte }
{
    matches!(byte, b'_' | b'#' | b'&' | b'$' | b'%' | b'{' | b'}')
}

/// Appends a character of a name as LaTeX prints it.
fn push_byte(out: &mut Vec<u8>, byte: u8) -> Result<(), AllocError>
    ensures { OnOk result (out.new.items ≡ out.old.items ++ byte_latex byte) }
{
    if is_special(byte) {
        out.push(b'\\')?;
        out.push(byte)?;
        return Ok(());
    }
    match byte {
        b'\\' => out.extend_from_slice(b"\\textbackslash{}"),
        b'^' => out.extend_from_slice(b"\\^{}"),
        b'~' => out.extend_from_slice(b"\\~{}"),
        _ => out.extend_from_slice(&[byte]),
    }
}

/// Appends characters as LaTeX prints them.
fn push_escaped(out: &mut Vec<u8>, bytes: &[u8]) -> Result<(), AllocError>
    ensures { OnOk result (out.new.items ≡ out.old.items ++ escaped bytes.now) }
{
    for byte in bytes {
        push_byte(out, *byte)?;
    }
    Ok(())
}

/// Appends a name as LaTeX prints it, with its quotation marks where it needs them.
pub(crate) fn push_latex_name(out: &mut Vec<u8>, name: &[u8]) -> Result<(), AllocError>
    ensures { OnOk result (out.new.items ≡ out.old.items ++ escaped (printed name.now)) }
{
    if is_plain(name) {
        return push_escaped(out, name);
    }
    out.push(b'"')?;
    push_escaped(out, name)?;
    out.push(b'"')?;
    Ok(())
}
