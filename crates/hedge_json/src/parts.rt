//! The bits of a vertex, and what each is the parity of.

ghost use Rattle.std.specs.Prelude.{◌≡◌, ◌++◌, ◌∷◌, [], if◌then◌else◌, map, codes, OnOk};
ghost use Rattle.answer_json.specs.Vocabulary.{with_value, with_values, with_member, with_members, array_of};
ghost use Rattle.hedge_json.specs.declared.bits.Bit.TheVariants.{HedgeBit, CarriedBit};
ghost use Rattle.hedge_json.specs.Models.{bit_json, bits_json, bit_members, cause_term, terms_json, part_values, mechanism_values, letter};

use crate::bits::{Bit, push_bit, push_bit_members, push_bits};
use answer_json::Object;
use finite_models::{Mechanism, Part};
use mixed_graph::{Names, VSet};
use std::alloc::AllocError;

/// The hedge bit of v, where its part reads it.
fn push_own(object: &mut Object, names: &Names, part: &Part, v: usize) -> Result<(), AllocError>
    ensures { OnOk result (object.new ≡ with_values (if part.now.own_hedge then bit_json names.now HedgeBit v ∷ [] else []) object.old) }
{
    if !part.own_hedge {
        return Ok(());
    }
    push_bit(object, names, Bit::HedgeBit, v)
}

/// A cause as a term.
fn push_cause_term(object: &mut Object, j: u32) -> Result<(), AllocError>
    ensures { OnOk result (object.new ≡ with_value (cause_term j) object.old) }
{
    object.begin_object()?;
    object.number_at("cause", u64::from(j))?;
    object.end_object()?;
    Ok(())
}

/// Causes as terms, in their order.
fn push_cause_terms(object: &mut Object, causes: &[u32]) -> Result<(), AllocError>
    ensures { OnOk result (object.new ≡ with_values (map cause_term causes.now) object.old) }
{
    for j in causes {
        push_cause_term(object, *j)?;
    }
    Ok(())
}

/// What a bit of vertex v is the parity of.
fn push_terms(object: &mut Object, names: &Names, v: usize, part: &Part) -> Result<(), AllocError>
    ensures { OnOk result (object.new ≡ with_values (terms_json names.now v part.now) object.old) }
{
    push_own(object, names, part, v)?;
    push_bits(object, names, Bit::HedgeBit, part.hedge_of)?;
    push_bits(object, names, Bit::CarriedBit, part.carried_of)?;
    push_cause_terms(object, part.causes.as_slice())?;
    Ok(())
}

/// The member of what a bit is the parity of.
#[tactic(auto, using(answer_json::proofs::Arrays::array_written))]
fn push_sum(object: &mut Object, names: &Names, v: usize, part: &Part) -> Result<(), AllocError>
    ensures { OnOk result (object.new ≡ with_member (codes "sum") (array_of (terms_json names.now v part.now)) object.old) }
{
    object.key("sum")?;
    object.begin_array()?;
    push_terms(object, names, v, part)?;
    object.end_array()?;
    Ok(())
}

/// A bit of vertex v, where it has that bit.
fn push_part(
    object: &mut Object,
    names: &Names,
    bit: Bit,
    v: usize,
    part: &Option<Part>,
) -> Result<(), AllocError>
    ensures { OnOk result (object.new ≡ with_values (part_values names.now bit v part.now) object.old) }
{
    let Some(part) = part else {
        return Ok(());
    };
    object.begin_object()?;
    push_bit_members(object, names, bit, v)?;
    push_sum(object, names, v, part)?;
    object.end_object()?;
    Ok(())
}

/// The hedge bit of vertex v, and then its carried bit.
fn push_parity(
    object: &mut Object,
    names: &Names,
    v: usize,
    hedge: &Option<Part>,
    carried: &Option<Part>,
) -> Result<(), AllocError>
    ensures { OnOk result (object.new ≡ with_values (part_values names.now HedgeBit v hedge.now ++ part_values names.now CarriedBit v carried.now) object.old) }
{
    push_part(object, names, Bit::HedgeBit, v, hedge)?;
    push_part(object, names, Bit::CarriedBit, v, carried)?;
    Ok(())
}

/// The bits of vertex v.
pub fn push_mechanism(
    object: &mut Object,
    names: &Names,
    v: usize,
    mechanism: &Mechanism,
) -> Result<(), AllocError>
    ensures { OnOk result (object.new ≡ with_values (mechanism_values names.now v mechanism.now) object.old) }
{
    match mechanism {
        Mechanism::Table { .. } => Ok(()),
        Mechanism::Parity { hedge, carried } => push_parity(object, names, v, hedge, carried),
    }
}
