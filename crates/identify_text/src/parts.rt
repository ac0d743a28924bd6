//! The text of a mechanism's parts.

ghost use Rattle.std.specs.Prelude.{◌≡◌, ◌++◌, ◌∷◌, [], if◌then◌else◌, codes, map, OnOk};
ghost use Rattle.identify_text.specs.declared.bits.Bit.TheVariants.{Hedge};
ghost use Rattle.identify_text.specs.ModelLines.{bit_text, cause_text, terms_of, added, sum_text, part_line, mechanism_lines};

use crate::bits::{Bit, add_bits, push_bit, push_sum};
use finite_models::{Mechanism, Part};
use mixed_graph::Names;
use std::alloc::{AllocError, Global};

/// Appends ` + ` and the hedge bit of v, where its part reads it.
fn add_own(terms: &mut Vec<u8>, names: &Names, part: &Part, v: usize) -> Result<(), AllocError>
    ensures { OnOk result (terms.new.items ≡ terms.old.items ++ added (if part.now.own_hedge then bit_text names.now Hedge v ∷ [] else [])) }
{
    if !part.own_hedge {
        return Ok(());
    }
    terms.extend_from_slice(b" + ")?;
    push_bit(terms, names, Bit::Hedge, v)
}

/// Appends ` + ` and a cause.
fn add_cause(alloc: Global, terms: &mut Vec<u8>, j: u32) -> Result<(), AllocError>
    ensures { OnOk result (terms.new.items ≡ terms.old.items ++ (codes " + " ++ cause_text j)) }
{
    let text = format!(in alloc; " + c{j}")?;
    terms.extend_from_slice(text.as_bytes())?;
    Ok(())
}

/// Appends ` + ` and the cause for each, in their order.
fn add_causes(alloc: Global, terms: &mut Vec<u8>, causes: &[u32]) -> Result<(), AllocError>
    ensures { OnOk result (terms.new.items ≡ terms.old.items ++ added (map cause_text causes.now)) }
{
    for j in causes {
        add_cause(alloc, terms, *j)?;
    }
    Ok(())
}

/// Appends what a bit of vertex v is the parity of.
fn push_terms(
    alloc: Global,
    out: &mut Vec<u8>,
    names: &Names,
    v: usize,
    part: &Part,
) -> Result<(), AllocError>
    ensures { OnOk result (out.new.items ≡ out.old.items ++ sum_text (terms_of names.now v part.now)) }
{
    let mut terms = Vec::new(alloc);
    add_own(&mut terms, names, part, v)?;
    add_bits(&mut terms, names, Bit::Hedge, part.hedge_of)?;
    add_bits(&mut terms, names, Bit::Carried, part.carried_of)?;
    add_causes(alloc, &mut terms, part.causes.as_slice())?;
    push_sum(out, terms.as_slice())
}

/// Appends the line of a bit of vertex v, where it has that bit.
fn push_part(
    alloc: Global,
    out: &mut Vec<u8>,
    names: &Names,
    model: &[u8],
    bit: Bit,
    v: usize,
    part: &Option<Part>,
) -> Result<(), AllocError>
    ensures { OnOk result (out.new.items ≡ out.old.items ++ part_line names.now model.now bit v part.now) }
{
    let Some(part) = part else {
        return Ok(());
    };
    out.extend_from_slice(model)?;
    out.push(b' ')?;
    push_bit(out, names, bit, v)?;
    out.extend_from_slice(b" = ")?;
    push_terms(alloc, out, names, v, part)?;
    out.push(b'\n')?;
    Ok(())
}

/// Appends the lines of vertex v.
pub fn push_mechanism(
    alloc: Global,
    out: &mut Vec<u8>,
    names: &Names,
    model: &[u8],
    v: usize,
    mechanism: &Mechanism,
) -> Result<(), AllocError>
    ensures { OnOk result (out.new.items ≡ out.old.items ++ mechanism_lines names.now model.now v mechanism.now) }
{
    match mechanism {
        Mechanism::Table { .. } => Ok(()),
        Mechanism::Parity { hedge, carried } => {
            push_part(alloc, out, names, model, Bit::Hedge, v, hedge)?;
            push_part(alloc, out, names, model, Bit::Carried, v, carried)
        }
    }
}
