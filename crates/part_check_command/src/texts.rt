//! The texts of the answers.

ghost use Rattle.std.specs.Prelude.{◌≡◌, ◌++◌, IfOk, OnOk};
ghost use Rattle.std.specs.List.{flat_map};
ghost use Rattle.part_check_command.specs.Lines.{accepted_text, due_text, further_text, natural_text, pair_text, part_derivation_text, part_text, parts_fault_text, refused_natural_text, refused_treated_text, split_text, treated_text, witness_text};

use answer_text::{Notation, push_set, push_vertex};
use derived_parts::PartsFault;
use do_derivation::CheckFault;
use identify_text::answer_in;
use mixed_graph::{Names, VSet};
use natural_command::district_effect;
use natural_id::{NaturalFormula, Part, Split, Witness};
use part_checks::{NaturalPartsFault, TreatedFormula, TreatedPartsFault};
use std::alloc::{AllocError, Global};
use told::{Told, Writing};
use treated_id::Pair;

// ---- what is accepted

/// Appends the lines of a part.
fn push_part(alloc: Global, out: &mut Vec<u8>, names: &Names, part: &Part) -> Result<(), AllocError>
    ensures { OnOk result (out.new.items ≡ out.old.items ++ part_text names.now part.now) }
{
    let effect = district_effect(names, part);
    let lines = answer_in(alloc, Notation::Plain, &part.formula, &effect, names)?;
    out.extend_from_slice(lines.as_slice())?;
    Ok(())
}

/// Appends the lines of all parts.
fn push_parts(
    alloc: Global,
    out: &mut Vec<u8>,
    names: &Names,
    parts: &[Part],
) -> Result<(), AllocError>
    ensures { OnOk result (out.new.items ≡ out.old.items ++ flat_map (part_text names.now) parts.now) }
{
    for part in parts {
        push_part(alloc, out, names, part)?;
    }
    Ok(())
}

/// What is accepted of an effect: it, and its parts.
fn accepted_text(
    alloc: Global,
    names: &Names,
    effect: &[u8],
    parts: &[Part],
) -> Result<Vec<u8>, AllocError>
    ensures { IfOk result (λ v. v.items ≡ accepted_text names.now effect.now parts.now) }
{
    let mut text = Vec::from_slice(alloc, b"accepted\n")?;
    text.extend_from_slice(effect)?;
    text.extend_from_slice(b" in parts:\n")?;
    push_parts(alloc, &mut text, names, parts)?;
    Ok(text)
}

/// The accepted parts of an effect among the treated.
pub fn treated_text(
    alloc: Global,
    names: &Names,
    asked: treated_command::Asked,
    f: &TreatedFormula,
) -> Result<Vec<u8>, AllocError>
    ensures { IfOk result (λ v. v.items ≡ treated_text names.now asked f.now) }
{
    let effect = treated_command::effect_text(alloc, names, asked)?;
    accepted_text(alloc, names, effect.as_slice(), f.parts.as_slice())
}

/// Those of a nested effect.
pub fn natural_text(
    alloc: Global,
    names: &Names,
    asked: natural_command::Asked,
    f: &NaturalFormula,
) -> Result<Vec<u8>, AllocError>
    ensures { IfOk result (λ v. v.items ≡ natural_text names.now asked f.now) }
{
    let effect = natural_command::effect_text(alloc, names, asked)?;
    accepted_text(alloc, names, effect.as_slice(), f.parts.as_slice())
}

// ---- what is refused

/// A treatment is joined to a child of its own.
fn pair_text(alloc: Global, names: &Names, pair: Pair) -> Result<Vec<u8>, AllocError>
    ensures { IfOk result (λ v. v.items ≡ pair_text names.now pair) }
{
    let mut text = Vec::from_slice(alloc, b"refused: parts fault 1: ")?;
    push_vertex(&mut text, names, pair.treatment)?;
    text.extend_from_slice(b" ")?;
    push_vertex(&mut text, names, pair.child)?;
    text.extend_from_slice(b"\n")?;
    Ok(text)
}

/// A vertex reads both values of a treatment.
fn witness_text(alloc: Global, names: &Names, w: Witness) -> Result<Vec<u8>, AllocError>
    ensures { IfOk result (λ v. v.items ≡ witness_text names.now w) }
{
    let mut text = Vec::from_slice(alloc, b"refused: parts fault 2: ")?;
    push_vertex(&mut text, names, w.child)?;
    text.extend_from_slice(b"\n")?;
    Ok(text)
}

/// A district reads both values of a treatment.
fn split_text(alloc: Global, names: &Names, s: Split) -> Result<Vec<u8>, AllocError>
    ensures { IfOk result (λ v. v.items ≡ split_text names.now s) }
{
    let mut text = Vec::from_slice(alloc, b"refused: parts fault 3: ")?;
    push_set(&mut text, names, s.district)?;
    text.extend_from_slice(b"\n")?;
    Ok(text)
}

/// A fault of the part of that number, where this district is due.
fn due_text(
    alloc: Global,
    names: &Names,
    fault: &[u8],
    part: usize,
    due: VSet,
) -> Result<Vec<u8>, AllocError>
    ensures { IfOk result (λ v. v.items ≡ due_text names.now fault.now part due.bits) }
{
    let mut text = Vec::from_slice(alloc, fault)?;
    let place = format!(in alloc; " at part {part}")?;
    text.extend_from_slice(place.as_bytes())?;
    text.extend_from_slice(b": ")?;
    push_set(&mut text, names, due)?;
    text.extend_from_slice(b"\n")?;
    Ok(text)
}

/// A further part, of that number.
fn further_text(alloc: Global, part: usize) -> Result<Vec<u8>, AllocError>
    ensures { IfOk result (λ v. v.items ≡ further_text part) }
{
    let mut text = Vec::from_slice(alloc, b"refused: parts fault 5")?;
    let place = format!(in alloc; " at part {part}")?;
    text.extend_from_slice(place.as_bytes())?;
    text.extend_from_slice(b"\n")?;
    Ok(text)
}

/// A part whose derivation, of so many lemmas, isn't accepted.
fn derivation_text(
    alloc: Global,
    names: &Names,
    lemmas: usize,
    part: usize,
    fault: CheckFault,
) -> Result<Vec<u8>, AllocError>
    ensures { IfOk result (λ v. v.items ≡ part_derivation_text names.now lemmas part fault) }
{
    let mut text = Vec::from_slice(alloc, b"refused: parts fault 7")?;
    let place = format!(in alloc; " at part {part}")?;
    text.extend_from_slice(place.as_bytes())?;
    text.extend_from_slice(b"\n")?;
    let answer = check_command::Answer::RefusedDerivation(lemmas, fault);
    let why = answer.text(alloc, names, Writing::Plain)?;
    text.extend_from_slice(why.as_slice())?;
    Ok(text)
}

/// A fault of the parts; want of memory has no text.
fn parts_fault_text(
    alloc: Global,
    names: &Names,
    lemmas: usize,
    fault: PartsFault,
) -> Result<Vec<u8>, AllocError>
    ensures { IfOk result (λ v. v.items ≡ parts_fault_text names.now lemmas fault) }
{
    match fault {
        PartsFault::Missing { part, due } => {
            due_text(alloc, names, b"refused: parts fault 4", part, due)
        }
        PartsFault::Further(part) => further_text(alloc, part),
        PartsFault::District { part, due } => {
            due_text(alloc, names, b"refused: parts fault 6", part, due)
        }
        PartsFault::Derivation { part, fault } => {
            derivation_text(alloc, names, lemmas, part, fault)
        }
        PartsFault::NoMemory => Err(AllocError),
    }
}

/// Why the parts of an effect among the treated are refused.
pub fn refused_treated_text(
    alloc: Global,
    names: &Names,
    lemmas: usize,
    fault: TreatedPartsFault,
) -> Result<Vec<u8>, AllocError>
    ensures { IfOk result (λ v. v.items ≡ refused_treated_text names.now lemmas fault) }
{
    match fault {
        TreatedPartsFault::Confounded(pair) => pair_text(alloc, names, pair),
        TreatedPartsFault::Parts(fault) => parts_fault_text(alloc, names, lemmas, fault),
    }
}

/// Why those of a nested effect are.
pub fn refused_natural_text(
    alloc: Global,
    names: &Names,
    lemmas: usize,
    fault: NaturalPartsFault,
) -> Result<Vec<u8>, AllocError>
    ensures { IfOk result (λ v. v.items ≡ refused_natural_text names.now lemmas fault) }
{
    match fault {
        NaturalPartsFault::Witness(w) => witness_text(alloc, names, w),
        NaturalPartsFault::Split(s) => split_text(alloc, names, s),
        NaturalPartsFault::Parts(fault) => parts_fault_text(alloc, names, lemmas, fault),
    }
}
