//! The two bits of a vertex as text.

ghost use Rattle.std.specs.Prelude.{◌≡◌, ◌++◌, [], if◌then◌else◌, codes, drop, OnOk};
ghost use Rattle.mixed_graph.specs.Vocabulary.{has, name_of};
ghost use Rattle.identify_text.specs.ModelLines.{letter, bit_text, bits_of, added};

use answer_text::names::push_name;
use mixed_graph::{Names, VSet};
use std::alloc::AllocError;

/// The two bits of a vertex.
#[derive(Clone, Copy)]
pub enum Bit {
    Hedge,
    Carried,
}

/// The letter of a bit.
fn letter(bit: Bit) -> &'static [u8]
    ensures { result.now ≡ letter bit }
{
    match bit {
        Bit::Hedge => b"h",
        Bit::Carried => b"k",
    }
}

/// The name of vertex v, whatever number it is; the empty text where there is no such vertex.
pub fn vertex_name(names: &Names, v: usize) -> &[u8]
    ensures { result.now ≡ name_of names.now v }
{
    if v < names.count() as usize {
        names.name(v as u8)
    } else {
        b""
    }
}

/// Appends a bit of vertex v, as `h(X)`.
pub fn push_bit(out: &mut Vec<u8>, names: &Names, bit: Bit, v: usize) -> Result<(), AllocError>
    ensures { OnOk result (out.new.items ≡ out.old.items ++ bit_text names.now bit v) }
{
    out.extend_from_slice(letter(bit))?;
    out.push(b'(')?;
    push_name(out, vertex_name(names, v))?;
    out.push(b')')?;
    Ok(())
}

/// Appends ` + ` and the bit of v, where v is a member.
fn add_bit(terms: &mut Vec<u8>, names: &Names, bit: Bit, set: VSet, v: u8) -> Result<(), AllocError>
    ensures { OnOk result (terms.new.items ≡ terms.old.items ++ (if has set.bits v then codes " + " ++ bit_text names.now bit v else [])) }
{
    if !set.has(v) {
        return Ok(());
    }
    terms.extend_from_slice(b" + ")?;
    push_bit(terms, names, bit, v as usize)
}

/// Appends ` + ` and its bit for each member, in index order.
pub fn add_bits(terms: &mut Vec<u8>, names: &Names, bit: Bit, set: VSet) -> Result<(), AllocError>
    ensures { OnOk result (terms.new.items ≡ terms.old.items ++ added (bits_of names.now bit set.bits)) }
{
    for v in 0..64u8 {
        add_bit(terms, names, bit, set, v)?;
    }
    Ok(())
}

/// Appends terms without the ` + ` before the first.
pub fn push_sum(out: &mut Vec<u8>, terms: &[u8]) -> Result<(), AllocError>
    ensures { OnOk result (out.new.items ≡ out.old.items ++ drop 3 terms.now) }
{
    if terms.len() < 3 {
        return Ok(());
    }
    out.extend_from_slice(&terms[3..])?;
    Ok(())
}
