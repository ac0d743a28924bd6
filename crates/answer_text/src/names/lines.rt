//! The lines that say what is wrong.

ghost use Rattle.std.specs.Prelude.{◌≡◌, [], ◌∷◌, ◌++◌, IfOk};
ghost use Rattle.std.specs.Fmt.{decimal};
ghost use Rattle.answer_text.specs.Printing.{printed};
ghost use Rattle.answer_text.specs.Lines.{line_of, second};

use crate::names::push_name;
use std::alloc::{AllocError, Global};

/// A text with a name behind it, as it is printed. The error is want of memory.
pub fn with_name(alloc: Global, text: &str, name: &[u8]) -> Result<Vec<u8>, AllocError>
    ensures { IfOk result (λ v. v.items ≡ text.now ++ printed name.now) }
{
    let mut out = Vec::from_slice(alloc, text.as_bytes())?;
    push_name(&mut out, name)?;
    Ok(out)
}

/// A text with a number behind it, in decimal digits. The error is want of memory.
pub fn with_number(alloc: Global, text: &str, number: u64) -> Result<Vec<u8>, AllocError>
    ensures { IfOk result (λ v. v.items ≡ text.now ++ decimal number) }
{
    Ok(format!(in alloc; "{text}{number}")?.into_bytes())
}

/// The line of what is wrong: `causal: `, the text and a line feed. The error is want of memory.
pub fn refusal_line(alloc: Global, text: &[u8]) -> Result<Vec<u8>, AllocError>
    ensures { IfOk result (λ v. v.items ≡ line_of text.now) }
{
    line_behind(alloc, b"causal: ", text)
}

/// The line of what is wrong with the second of two graphs, or with its names. The error is want of memory.
pub fn second_line(alloc: Global, text: &[u8]) -> Result<Vec<u8>, AllocError>
    ensures { IfOk result (λ v. v.items ≡ line_of (second text.now)) }
{
    line_behind(alloc, b"causal: second ", text)
}

/// A line of a front and a text.
fn line_behind(alloc: Global, front: &[u8], text: &[u8]) -> Result<Vec<u8>, AllocError>
    ensures { IfOk result (λ v. v.items ≡ front.now ++ (text.now ++ 10 ∷ [])) }
{
    let mut line = Vec::from_slice(alloc, front)?;
    line.extend_from_slice(text)?;
    line.push(b'\n')?;
    Ok(line)
}
