//! A derivation that is refused.

ghost use Rattle.std.specs.Prelude.{◌≡◌, [], OnOk, None};
ghost use Rattle.json.specs.Json.{null};
ghost use Rattle.answer_json.specs.Vocabulary.{with_value, with_members};
ghost use Rattle.check_json.specs.Refusals.{step_number, step_message, open_members, number_or_null, at_json, refused_members, end_place, end_message, do_message, derivation_members, begun_refusal};

use answer_json::Object;
use do_derivation::{CheckFault, StepFault, StepPlace};
use mixed_graph::Names;
use std::alloc::AllocError;

/// The number of a step's fault.
fn step_number(fault: &StepFault) -> u64
    ensures { result ≡ step_number fault.now }
{
    match fault {
        StepFault::NotATerm => 1,
        StepFault::Sets => 2,
        StepFault::Unblocked(_) => 3,
        StepFault::BadOrder => 4,
        StepFault::Grouping => 5,
        StepFault::NoLemma(_) => 6,
        StepFault::NoPlace(_) => 7,
        StepFault::Shape => 8,
    }
}

/// The same in words.
#[tactic(auto, unfolding(crate::specs::Refusals::step_message))]
fn step_message(fault: &StepFault) -> &'static str
    ensures { result.now ≡ step_message fault.now }
{
    match fault {
        StepFault::NotATerm => "the step wants a term",
        StepFault::Sets => "the sets of the step are wrong",
        StepFault::Unblocked(_) => "the separation of the rule fails",
        StepFault::BadOrder => "the order of the chain is wrong",
        StepFault::Grouping => "the groups are wrong",
        StepFault::NoLemma(_) => "there is no such lemma",
        StepFault::NoPlace(_) => "there is no such child",
        StepFault::Shape => "the expression has another shape",
    }
}

/// The message of another end.
#[tactic(auto, unfolding(crate::specs::Refusals::end_message))]
fn end_message() -> &'static str
    ensures { result.now ≡ end_message }
{
    "the steps end in another expression than the one that stands there"
}

/// The message of an intervention that is left.
#[tactic(auto, unfolding(crate::specs::Refusals::do_message))]
fn do_message() -> &'static str
    ensures { result.now ≡ do_message }
{
    "a term still has a do"
}

/// A number, where there is one.
fn push_number(object: &mut Object, k: Option<u32>) -> Result<(), AllocError>
    ensures { OnOk result (object.new ≡ with_value (number_or_null k) object.old) }
{
    match k {
        None => object.null(),
        Some(k) => object.number(u64::from(k)),
    }
}

/// Where a step stands.
fn push_at(object: &mut Object, lemma: Option<u32>, step: Option<u32>) -> Result<(), AllocError>
    ensures { OnOk result (object.new ≡ with_value (at_json lemma step) object.old) }
{
    object.begin_object()?;
    object.key("lemma")?;
    push_number(object, lemma)?;
    object.key("step")?;
    push_number(object, step)?;
    object.end_object()?;
    Ok(())
}

/// The open path, where that is the fault.
fn push_open(object: &mut Object, names: &Names, fault: &StepFault) -> Result<(), AllocError>
    ensures { OnOk result (object.new ≡ with_members (open_members names.now fault.now) object.old) }
{
    match fault {
        StepFault::Unblocked(path) => object.path_at("open", names, path),
        StepFault::NotATerm
        | StepFault::Sets
        | StepFault::BadOrder
        | StepFault::Grouping
        | StepFault::NoLemma(_)
        | StepFault::NoPlace(_)
        | StepFault::Shape => Ok(()),
    }
}

/// Adds the members of a refusal up to the key of its place.
fn begin_refusal(object: &mut Object) -> Result<(), AllocError>
    ensures { OnOk result (object.new ≡ begun_refusal object.old) }
{
    object.word_at("answer", "refused")?;
    object.word_at("of", "formula")?;
    object.key("at")
}

/// Adds the members of a refused step.
fn push_step(
    object: &mut Object,
    names: &Names,
    place: &StepPlace,
    fault: &StepFault,
) -> Result<(), AllocError>
    ensures { OnOk result (object.new ≡ with_members (derivation_members names.now 0 (CheckFault.Step place.now fault.now)) object.old) }
{
    begin_refusal(object)?;
    push_at(object, place.lemma, Some(place.number))?;
    object.number_at("number", step_number(fault))?;
    object.word_at("message", step_message(fault))?;
    push_open(object, names, fault)
}

/// The place of another end: lemma k, or main where k is the number of lemmas.
fn end_place(lemmas: usize, k: u32) -> Option<u32>
    ensures { result ≡ end_place lemmas k }
{
    if k as usize == lemmas { None } else { Some(k) }
}

/// Adds the members of another end.
fn push_end(object: &mut Object, lemma: Option<u32>) -> Result<(), AllocError>
    ensures { OnOk result (object.new ≡ with_members (refused_members (at_json lemma None) 9 end_message []) object.old) }
{
    begin_refusal(object)?;
    push_at(object, lemma, None)?;
    object.number_at("number", 9)?;
    object.word_at("message", end_message())
}

/// Adds the members of an intervention that is left.
fn push_do(object: &mut Object) -> Result<(), AllocError>
    ensures { OnOk result (object.new ≡ with_members (refused_members null 10 do_message []) object.old) }
{
    begin_refusal(object)?;
    object.null()?;
    object.number_at("number", 10)?;
    object.word_at("message", do_message())
}

/// Adds the members of a derivation of so many lemmas that is refused; want of memory has none.
pub fn push_refused_derivation(
    object: &mut Object,
    names: &Names,
    lemmas: usize,
    fault: &CheckFault,
) -> Result<(), AllocError>
    ensures members { OnOk result (object.new ≡ with_members (derivation_members names.now lemmas fault.now) object.old) }
    ensures memory { OnOk result (fault.now ≡ CheckFault.NoMemory → ⊥) }
{
    match fault {
        CheckFault::Step { place, fault } => push_step(object, names, place, fault),
        CheckFault::EndDiffers(k) => push_end(object, end_place(lemmas, *k)),
        CheckFault::DoLeft => push_do(object),
        CheckFault::NoMemory => Err(AllocError),
    }
}
