//! The members of the answers' objects.

ghost use Rattle.std.specs.Prelude.{◌≡◌, codes, map, OnOk};
ghost use Rattle.answer_json.specs.Vocabulary.{with_member, with_members, with_value, with_values, object_of};
ghost use Rattle.part_check_command.specs.Objects.{said_members, part_members, part_json, parts_json, treated_members, natural_members, numbered_members, pair_message, witness_message, split_message, missing_message, further_message, district_message, derivation_message, pair_members, witness_members, split_members, due_members, further_members, part_derivation_members, parts_fault_members, treated_fault_members, natural_fault_members, refused_members};
ghost use Rattle.told.specs.declared.form.Writing.TheVariants as writings;
ghost use Rattle.check_command.specs.declared.answer.Answer.TheVariants.{RefusedDerivation};
ghost use Rattle.check_command.specs.Vocabulary.{check_telling};

use answer_json::Object;
use derived_parts::PartsFault;
use do_derivation::CheckFault;
use effect_answers::objects::push_formula;
use mixed_graph::{Names, VSet};
use natural_command::district_effect;
use natural_id::{NaturalFormula, Part, Split, Witness};
use part_checks::{NaturalPartsFault, TreatedFormula, TreatedPartsFault};
use std::alloc::AllocError;
use told::{Told, Writing};
use treated_id::Pair;

/// What is said of parts.
fn push_said(object: &mut Object, word: &str) -> Result<(), AllocError>
    ensures { OnOk result (object.new ≡ with_members (said_members word.now) object.old) }
{
    object.word_at("answer", word)?;
    object.word_at("of", "parts")
}

// ---- what is accepted

/// The members of a part.
fn push_part_members(object: &mut Object, names: &Names, part: &Part) -> Result<(), AllocError>
    ensures { OnOk result (object.new ≡ with_members (part_members names.now part.now) object.old) }
{
    object.set_at("district", names, part.district)?;
    let effect = district_effect(names, part);
    push_formula(object, names, &effect, &part.formula)
}

/// The object of a part.
fn push_part(object: &mut Object, names: &Names, part: &Part) -> Result<(), AllocError>
    ensures { OnOk result (object.new ≡ with_value (part_json names.now part.now) object.old) }
{
    object.begin_object()?;
    push_part_members(object, names, part)?;
    object.end_object()?;
    Ok(())
}

/// The objects of the parts.
fn push_each_part(object: &mut Object, names: &Names, parts: &Vec<Part>) -> Result<(), AllocError>
    ensures { OnOk result (object.new ≡ with_values (map (part_json names.now) parts.now.items) object.old) }
{
    for part in parts {
        push_part(object, names, part)?;
    }
    Ok(())
}

/// The member of the parts.
#[tactic(auto, using(answer_json::proofs::Arrays::array_written))]
fn push_parts(object: &mut Object, names: &Names, parts: &Vec<Part>) -> Result<(), AllocError>
    ensures { OnOk result (object.new ≡ with_member (codes "parts") (parts_json names.now parts.now.items) object.old) }
{
    object.key("parts")?;
    object.begin_array()?;
    push_each_part(object, names, parts)?;
    object.end_array()?;
    Ok(())
}

/// The members of the accepted parts of an effect among the treated.
pub fn push_treated(
    object: &mut Object,
    names: &Names,
    asked: treated_command::Asked,
    f: &TreatedFormula,
) -> Result<(), AllocError>
    ensures { OnOk result (object.new ≡ with_members (treated_members names.now asked f.now) object.old) }
{
    push_said(object, "accepted")?;
    object.set_at("y", names, asked.sets.y)?;
    object.set_at("x", names, asked.sets.x)?;
    object.set_at("given", names, asked.sets.given)?;
    let effect = treated_command::effect_text(object.alloc(), names, asked)?;
    object.text_at("effect", effect.as_slice())?;
    push_parts(object, names, &f.parts)
}

/// Those of a nested effect.
pub fn push_natural(
    object: &mut Object,
    names: &Names,
    asked: natural_command::Asked,
    f: &NaturalFormula,
) -> Result<(), AllocError>
    ensures { OnOk result (object.new ≡ with_members (natural_members names.now asked f.now) object.old) }
{
    push_said(object, "accepted")?;
    object.set_at("y", names, asked.question.y)?;
    object.set_at("x", names, asked.question.x)?;
    object.set_at("given", names, asked.question.given)?;
    object.set_at("through", names, asked.question.through)?;
    let effect = natural_command::effect_text(object.alloc(), names, asked)?;
    object.text_at("effect", effect.as_slice())?;
    push_parts(object, names, &f.parts)
}

// ---- what is refused

/// The number of a fault, and the same in words.
fn push_numbered(object: &mut Object, n: u64, message: &str) -> Result<(), AllocError>
    ensures { OnOk result (object.new ≡ with_members (numbered_members n message.now) object.old) }
{
    object.number_at("number", n)?;
    object.word_at("message", message)
}

#[tactic(auto, unfolding(crate::specs::Objects::pair_message))]
fn pair_message() -> &'static str
    ensures { result.now ≡ pair_message }
{
    "the treatment is joined to this child of its own"
}

#[tactic(auto, unfolding(crate::specs::Objects::witness_message))]
fn witness_message() -> &'static str
    ensures { result.now ≡ witness_message }
{
    "the vertex reads both values of a treatment"
}

#[tactic(auto, unfolding(crate::specs::Objects::split_message))]
fn split_message() -> &'static str
    ensures { result.now ≡ split_message }
{
    "the district reads both values of a treatment"
}

#[tactic(auto, unfolding(crate::specs::Objects::missing_message))]
fn missing_message() -> &'static str
    ensures { result.now ≡ missing_message }
{
    "the part of this district is missing"
}

#[tactic(auto, unfolding(crate::specs::Objects::further_message))]
fn further_message() -> &'static str
    ensures { result.now ≡ further_message }
{
    "there is a further part"
}

#[tactic(auto, unfolding(crate::specs::Objects::district_message))]
fn district_message() -> &'static str
    ensures { result.now ≡ district_message }
{
    "the part is of another district than this one, which is due"
}

#[tactic(auto, unfolding(crate::specs::Objects::derivation_message))]
fn derivation_message() -> &'static str
    ensures { result.now ≡ derivation_message }
{
    "the derivation of the part isn't accepted"
}

/// A treatment is joined to a child of its own.
fn push_pair(object: &mut Object, names: &Names, pair: Pair) -> Result<(), AllocError>
    ensures { OnOk result (object.new ≡ with_members (pair_members names.now pair) object.old) }
{
    push_numbered(object, 1, pair_message())?;
    object.vertex_at("treatment", names, pair.treatment)?;
    object.vertex_at("child", names, pair.child)
}

/// A vertex reads both values of a treatment.
fn push_witness(object: &mut Object, names: &Names, w: Witness) -> Result<(), AllocError>
    ensures { OnOk result (object.new ≡ with_members (witness_members names.now w) object.old) }
{
    push_numbered(object, 2, witness_message())?;
    object.vertex_at("vertex", names, w.child)
}

/// A district reads both values of a treatment.
fn push_split(object: &mut Object, names: &Names, s: Split) -> Result<(), AllocError>
    ensures { OnOk result (object.new ≡ with_members (split_members names.now s) object.old) }
{
    push_numbered(object, 3, split_message())?;
    object.set_at("district", names, s.district)
}

/// A fault of the part of that number, where this district is due.
fn push_due(
    object: &mut Object,
    names: &Names,
    n: u64,
    message: &str,
    part: usize,
    due: VSet,
) -> Result<(), AllocError>
    ensures { OnOk result (object.new ≡ with_members (due_members names.now n message.now part due.bits) object.old) }
{
    push_numbered(object, n, message)?;
    object.number_at("part", part as u64)?;
    object.set_at("district", names, due)
}

/// A further part, of that number.
fn push_further(object: &mut Object, part: usize) -> Result<(), AllocError>
    ensures { OnOk result (object.new ≡ with_members (further_members part) object.old) }
{
    push_numbered(object, 5, further_message())?;
    object.number_at("part", part as u64)
}

/// What `check_command` says of a derivation of so many lemmas with this fault.
#[tactic(auto, using(certificate_json::proofs::Members::object_written))]
fn push_derivation(
    object: &mut Object,
    names: &Names,
    lemmas: usize,
    fault: CheckFault,
) -> Result<(), AllocError>
    ensures { OnOk result (object.new ≡ with_value (object_of (check_telling.members writings.Plain names.now (RefusedDerivation lemmas fault))) object.old) }
{
    let answer = check_command::Answer::RefusedDerivation(lemmas, fault);
    object.begin_object()?;
    answer.push_members(object, names, Writing::Plain)?;
    object.end_object()?;
    Ok(())
}

/// A part whose derivation, of so many lemmas, isn't accepted.
fn push_part_derivation(
    object: &mut Object,
    names: &Names,
    lemmas: usize,
    part: usize,
    fault: CheckFault,
) -> Result<(), AllocError>
    ensures { OnOk result (object.new ≡ with_members (part_derivation_members names.now lemmas part fault) object.old) }
{
    push_numbered(object, 7, derivation_message())?;
    object.number_at("part", part as u64)?;
    object.key("derivation")?;
    push_derivation(object, names, lemmas, fault)
}

/// A fault of the parts; want of memory has no members.
fn push_parts_fault(
    object: &mut Object,
    names: &Names,
    lemmas: usize,
    fault: PartsFault,
) -> Result<(), AllocError>
    ensures { OnOk result (object.new ≡ with_members (parts_fault_members names.now lemmas fault) object.old) }
{
    match fault {
        PartsFault::Missing { part, due } => {
            push_due(object, names, 4, missing_message(), part, due)
        }
        PartsFault::Further(part) => push_further(object, part),
        PartsFault::District { part, due } => {
            push_due(object, names, 6, district_message(), part, due)
        }
        PartsFault::Derivation { part, fault } => {
            push_part_derivation(object, names, lemmas, part, fault)
        }
        PartsFault::NoMemory => Err(AllocError),
    }
}

/// Why the parts of an effect among the treated are refused.
fn push_treated_fault(
    object: &mut Object,
    names: &Names,
    lemmas: usize,
    fault: TreatedPartsFault,
) -> Result<(), AllocError>
    ensures { OnOk result (object.new ≡ with_members (treated_fault_members names.now lemmas fault) object.old) }
{
    match fault {
        TreatedPartsFault::Confounded(pair) => push_pair(object, names, pair),
        TreatedPartsFault::Parts(fault) => push_parts_fault(object, names, lemmas, fault),
    }
}

/// Why those of a nested effect are.
fn push_natural_fault(
    object: &mut Object,
    names: &Names,
    lemmas: usize,
    fault: NaturalPartsFault,
) -> Result<(), AllocError>
    ensures { OnOk result (object.new ≡ with_members (natural_fault_members names.now lemmas fault) object.old) }
{
    match fault {
        NaturalPartsFault::Witness(w) => push_witness(object, names, w),
        NaturalPartsFault::Split(s) => push_split(object, names, s),
        NaturalPartsFault::Parts(fault) => push_parts_fault(object, names, lemmas, fault),
    }
}

/// The members of the refused parts of an effect among the treated.
pub fn push_refused_treated(
    object: &mut Object,
    names: &Names,
    lemmas: usize,
    fault: TreatedPartsFault,
) -> Result<(), AllocError>
    ensures { OnOk result (object.new ≡ with_members (refused_members (treated_fault_members names.now lemmas fault)) object.old) }
{
    push_said(object, "refused")?;
    object.key("fault")?;
    object.begin_object()?;
    push_treated_fault(object, names, lemmas, fault)?;
    object.end_object()
}

/// Those of a nested effect.
pub fn push_refused_natural(
    object: &mut Object,
    names: &Names,
    lemmas: usize,
    fault: NaturalPartsFault,
) -> Result<(), AllocError>
    ensures { OnOk result (object.new ≡ with_members (refused_members (natural_fault_members names.now lemmas fault)) object.old) }
{
    push_said(object, "refused")?;
    object.key("fault")?;
    object.begin_object()?;
    push_natural_fault(object, names, lemmas, fault)?;
    object.end_object()
}
