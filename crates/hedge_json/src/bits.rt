//! The two bits of a vertex.

ghost use Rattle.std.specs.Prelude.{◌≡◌, map, OnOk};
ghost use Rattle.answer_json.specs.Vocabulary.{with_value, with_values, with_members};
ghost use Rattle.hedge_json.specs.Models.{bit_json, bits_json, bit_members, letter};

use answer_json::Object;
use identify_text::vertex_name;
use mixed_graph::{Names, VSet};
use std::alloc::AllocError;

/// The two bits of a vertex.
#[derive(Clone, Copy)]
pub enum Bit {
    HedgeBit,
    CarriedBit,
}

/// The letter of a bit.
fn letter(bit: Bit) -> &'static str
    ensures { result.now ≡ letter bit }
{
    match bit {
        Bit::HedgeBit => "h",
        Bit::CarriedBit => "k",
    }
}

/// The members that say which bit of vertex v it is.
pub fn push_bit_members(
    object: &mut Object,
    names: &Names,
    bit: Bit,
    v: usize,
) -> Result<(), AllocError>
    ensures { OnOk result (object.new ≡ with_members (bit_members names.now bit v) object.old) }
{
    object.word_at("bit", letter(bit))?;
    object.text_at("vertex", vertex_name(names, v))?;
    Ok(())
}

/// A bit of vertex v as a term.
pub fn push_bit(object: &mut Object, names: &Names, bit: Bit, v: usize) -> Result<(), AllocError>
    ensures { OnOk result (object.new ≡ with_value (bit_json names.now bit v) object.old) }
{
    object.begin_object()?;
    push_bit_members(object, names, bit, v)?;
    object.end_object()?;
    Ok(())
}

/// That bit of each vertex, in their order.
fn push_all(object: &mut Object, names: &Names, bit: Bit, vertices: &[u8]) -> Result<(), AllocError>
    ensures { OnOk result (object.new ≡ with_values (map (bit_json names.now bit) vertices.now) object.old) }
{
    for v in vertices {
        push_bit(object, names, bit, *v as usize)?;
    }
    Ok(())
}

/// That bit of each member of a set, in index order.
pub fn push_bits(object: &mut Object, names: &Names, bit: Bit, set: VSet) -> Result<(), AllocError>
    ensures { OnOk result (object.new ≡ with_values (bits_json names.now bit set.bits) object.old) }
{
    let list = set.members(object.alloc())?;
    push_all(object, names, bit, list.as_slice())
}
