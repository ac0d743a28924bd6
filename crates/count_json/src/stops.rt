//! Evaluations without a value.

ghost use Rattle.std.specs.Prelude.{◌≡◌, IfOk, OnOk, codes};
ghost use Rattle.std.specs.Str.{IsUtf8};
ghost use Rattle.quantity.specs.declared.fault.QuantityFault.TheVariants.{ZeroBelow};
ghost use Rattle.count_eval.specs.Vocabulary.{cell_of};
ghost use Rattle.answer_json.specs.Vocabulary.{with_value, with_member, json_line, fault_begun};
ghost use Rattle.count_json.specs.Cells.{cell_json};
ghost use Rattle.count_json.specs.Stops.{stage, why_number, why_message, definition_json, evaluation_json, wide_json, fine_json, evaluation_fault_json, begun_stop};

use crate::cells::push_levels;
use answer_json::{Object, begin_fault};
use count_answers::entries;
use count_eval::EvalFault;
use count_table::Counts;
use mixed_graph::Names;
use prob_expr::Place;
use quantity::QuantityFault;
use std::alloc::{AllocError, Global};

/// The number of why there is no value.
fn why_number(why: QuantityFault) -> u64
    ensures { result ≡ why_number why }
{
    match why {
        QuantityFault::ZeroBelow => 1,
        QuantityFault::TooWide => 2,
        QuantityFault::TooFine => 3,
    }
}

/// The same in words.
#[tactic(auto, unfolding(crate::specs::Stops::why_message))]
fn why_message(why: QuantityFault) -> &'static str
    ensures { result.now ≡ why_message why }
{
    match why {
        QuantityFault::ZeroBelow => "a divisor is 0 over these counts",
        QuantityFault::TooWide => "a number passes 2^127 - 1",
        QuantityFault::TooFine => "a divisor lies between 0 and 10^-18",
    }
}

/// The stage of these faults.
#[tactic(auto, unfolding(crate::specs::Stops::stage))]
fn stage() -> &'static str
    ensures { result.now ≡ stage }
{
    "evaluation"
}

/// The number of a definition, or none for the main expression.
fn push_definition(object: &mut Object, definition: Option<u32>) -> Result<(), AllocError>
    ensures { OnOk result (object.new ≡ with_value (definition_json definition) object.old) }
{
    match definition {
        None => object.null(),
        Some(k) => object.number(u64::from(k)),
    }
}

/// The object of a fault up to its node.
fn begin_stop(alloc: Global, why: QuantityFault, place: Place) -> Result<Object, AllocError>
    ensures { IfOk result (λ o. o ≡ begun_stop why place.def place.node) }
{
    let mut object = begin_fault(alloc, stage(), why_number(why), why_message(why))?;
    object.key("definition")?;
    push_definition(&mut object, place.def)?;
    object.number_at("node", u64::from(place.node))?;
    Ok(object)
}

/// The member of the levels of all used vertices in a cell.
fn push_support(
    object: &mut Object,
    names: &Names,
    counts: &Counts,
    cell: &[u32; 64],
) -> Result<(), AllocError>
    ensures { OnOk result (object.new ≡ with_member (codes "cell") (cell_json names.now counts.now (cell_of cell.now) counts.now.vertices) object.old) }
{
    let list = counts.used().members(object.alloc())?;
    object.key("cell")?;
    object.begin_array()?;
    push_levels(object, names, counts, list.as_slice(), entries(cell))?;
    object.end_array()?;
    Ok(())
}

/// The line of a denominator that is 0 at a cell.
fn support_line(
    alloc: Global,
    names: &Names,
    counts: &Counts,
    cell: &[u32; 64],
    place: Place,
) -> Result<Vec<u8>, AllocError>
    ensures text { IfOk result (λ v. v.items ≡ json_line (evaluation_json ZeroBelow names.now counts.now place.def place.node (cell_of cell.now))) }
    ensures utf8 { IfOk result (λ v. IsUtf8 v.items) }
{
    let mut object = begin_stop(alloc, QuantityFault::ZeroBelow, place)?;
    push_support(&mut object, names, counts, cell)?;
    object.end_object()?;
    object.line()
}

/// The line of a number that is too wide.
fn wide_line(alloc: Global, place: Place) -> Result<Vec<u8>, AllocError>
    ensures text { IfOk result (λ v. v.items ≡ json_line (wide_json place.def place.node)) }
    ensures utf8 { IfOk result (λ v. IsUtf8 v.items) }
{
    let mut object = begin_stop(alloc, QuantityFault::TooWide, place)?;
    object.end_object()?;
    object.line()
}

/// The line of a divisor that is too fine.
fn fine_line(alloc: Global, place: Place) -> Result<Vec<u8>, AllocError>
    ensures text { IfOk result (λ v. v.items ≡ json_line (fine_json place.def place.node)) }
    ensures utf8 { IfOk result (λ v. IsUtf8 v.items) }
{
    let mut object = begin_stop(alloc, QuantityFault::TooFine, place)?;
    object.end_object()?;
    object.line()
}

/// The line of a fault: why the formula has no value at a cell, and at which node; want of memory has none.
pub fn evaluation_fault(
    alloc: Global,
    names: &Names,
    counts: &Counts,
    fault: &EvalFault,
) -> Result<Vec<u8>, AllocError>
    ensures text { IfOk result (λ v. v.items ≡ json_line (evaluation_fault_json names.now counts.now fault.now)) }
    ensures utf8 { IfOk result (λ v. IsUtf8 v.items) }
    ensures memory { OnOk result (fault.now ≡ EvalFault.NoMemory → ⊥) }
{
    match fault {
        EvalFault::NoSupport { cell, place } => support_line(alloc, names, counts, cell, *place),
        EvalFault::TooWide { place } => wide_line(alloc, *place),
        EvalFault::TooFine { place } => fine_line(alloc, *place),
        EvalFault::NoMemory => Err(AllocError),
    }
}
