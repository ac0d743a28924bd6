//! The lines of `check`: what is accepted, and the first fault.

ghost use Rattle.std.specs.Prelude.{◌≡◌, ◌++◌, OnOk, IfOk};
ghost use Rattle.prob_expr.specs.Vocabulary.{formula_view, target_view};
ghost use Rattle.answer_text.specs.declared.signs.Notation.TheVariants.{Plain};
ghost use Rattle.identify_text.specs.Vocabulary.{answer_in};
ghost use Rattle.check_command.specs.Lines.{accepted_text, place_text, fault_digit, path_line, step_text, end_place, derivation_text, name_or_dash, hedge_digit, at_vertex, hedge_text, heading};

use answer_text::{Notation, push_vertex};
use do_derivation::{CheckFault, StepFault, StepPlace};
use effect_answers::EffectFormula;
use experiment_lists::unidentifiable_text;
use hedge::{Hedge, HedgeFault};
use identify_text::{answer_in, hedge_heading, push_hedge_sets};
use mixed_graph::Names;
use replies::push_open;
use std::alloc::{AllocError, Global};
use targets::EffectSets;

// ---- what is accepted

/// The line of an accepted certificate, and its answer.
fn accepted_text(alloc: Global, answer: &[u8]) -> Result<Vec<u8>, AllocError>
    ensures { IfOk result (λ v. v.items ≡ accepted_text answer.now) }
{
    let mut text = Vec::from_slice(alloc, b"accepted\n")?;
    text.extend_from_slice(answer)?;
    Ok(text)
}

/// The text of an accepted formula.
pub fn accepted_formula_text(
    alloc: Global,
    names: &Names,
    f: &EffectFormula,
) -> Result<Vec<u8>, AllocError>
    ensures { IfOk result (λ v. v.items ≡ accepted_text (answer_in Plain names.now (target_view f.now.target) (formula_view f.now.formula))) }
{
    let answer = answer_in(alloc, Notation::Plain, &f.formula, &f.target, names)?;
    accepted_text(alloc, &answer)
}

/// The heading of a hedge, which speaks of experiments where there are some.
fn heading(
    alloc: Global,
    names: &Names,
    sets: EffectSets,
    hedge: &Hedge,
    over_experiments: bool,
) -> Result<Vec<u8>, AllocError>
    ensures { IfOk result (λ v. v.items ≡ heading over_experiments names.now sets.x.bits sets.y.bits hedge.now) }
{
    if !over_experiments {
        return hedge_heading(alloc, sets.x, sets.y, hedge, names);
    }
    let mut text = unidentifiable_text(alloc, names, sets.x, sets.y)?;
    push_hedge_sets(&mut text, names, hedge)?;
    Ok(text)
}

/// The text of an accepted hedge.
pub fn accepted_hedge_text(
    alloc: Global,
    names: &Names,
    sets: EffectSets,
    hedge: &Hedge,
    over_experiments: bool,
) -> Result<Vec<u8>, AllocError>
    ensures { IfOk result (λ v. v.items ≡ accepted_text (heading over_experiments names.now sets.x.bits sets.y.bits hedge.now)) }
{
    let answer = heading(alloc, names, sets, hedge, over_experiments)?;
    accepted_text(alloc, &answer)
}

// ---- what is refused

/// Appends `main` or the lemma of that number.
fn push_place(alloc: Global, out: &mut Vec<u8>, lemma: Option<u32>) -> Result<(), AllocError>
    ensures { OnOk result (out.new.items ≡ out.old.items ++ place_text lemma) }
{
    match lemma {
        None => out.extend_from_slice(b"main"),
        Some(number) => {
            let text = format!(in alloc; "lemma {number}")?;
            out.extend_from_slice(text.as_bytes())
        }
    }
}

/// The digit of a step's fault.
fn fault_digit(fault: &StepFault) -> &'static [u8]
    ensures { result.now ≡ fault_digit fault.now }
{
    match fault {
        StepFault::NotATerm => b"1",
        StepFault::Sets => b"2",
        StepFault::Unblocked(_) => b"3",
        StepFault::BadOrder => b"4",
        StepFault::Grouping => b"5",
        StepFault::NoLemma(_) => b"6",
        StepFault::NoPlace(_) => b"7",
        StepFault::Shape => b"8",
    }
}

/// Appends the line of the open path, where that is the fault.
fn push_path_line(out: &mut Vec<u8>, names: &Names, fault: &StepFault) -> Result<(), AllocError>
    ensures { OnOk result (out.new.items ≡ out.old.items ++ path_line names.now fault.now) }
{
    match fault {
        StepFault::Unblocked(path) => push_open(out, names, path),
        StepFault::NotATerm
        | StepFault::Sets
        | StepFault::BadOrder
        | StepFault::Grouping
        | StepFault::NoLemma(_)
        | StepFault::NoPlace(_)
        | StepFault::Shape => Ok(()),
    }
}

/// The text of a refused step.
fn step_text(
    alloc: Global,
    names: &Names,
    place: &StepPlace,
    fault: &StepFault,
) -> Result<Vec<u8>, AllocError>
    ensures { IfOk result (λ v. v.items ≡ step_text names.now place.now fault.now) }
{
    let mut text = Vec::from_slice(alloc, b"refused: ")?;
    push_place(alloc, &mut text, place.lemma)?;
    let number = place.number;
    let step = format!(in alloc; " step {number}")?;
    text.extend_from_slice(step.as_bytes())?;
    text.extend_from_slice(b" fault ")?;
    text.extend_from_slice(fault_digit(fault))?;
    text.push(b'\n')?;
    push_path_line(&mut text, names, fault)?;
    Ok(text)
}

/// The place of another end: lemma k, or main where k is the number of lemmas.
fn end_place(lemmas: usize, k: u32) -> Option<u32>
    ensures { result ≡ end_place lemmas k }
{
    if k as usize == lemmas { None } else { Some(k) }
}

/// The text of a derivation of so many lemmas that is refused.
pub fn derivation_text(
    alloc: Global,
    names: &Names,
    lemmas: usize,
    fault: &CheckFault,
) -> Result<Vec<u8>, AllocError>
    ensures text { IfOk result (λ v. v.items ≡ derivation_text names.now lemmas fault.now) }
    ensures memory { OnOk result (fault.now ≡ CheckFault.NoMemory → ⊥) }
{
    match fault {
        CheckFault::Step { place, fault } => step_text(alloc, names, place, fault),
        CheckFault::EndDiffers(k) => {
            let mut text = Vec::from_slice(alloc, b"refused: fault 9 at ")?;
            push_place(alloc, &mut text, end_place(lemmas, *k))?;
            text.push(b'\n')?;
            Ok(text)
        }
        CheckFault::DoLeft => Vec::from_slice(alloc, b"refused: fault 10\n"),
        CheckFault::NoMemory => Err(AllocError),
    }
}

/// Appends the name of vertex v; `-` where there is no such vertex.
fn push_name_or_dash(out: &mut Vec<u8>, names: &Names, v: u8) -> Result<(), AllocError>
    ensures { OnOk result (out.new.items ≡ out.old.items ++ name_or_dash names.now v) }
{
    if (v as u32) < names.count() {
        push_vertex(out, names, v)
    } else {
        out.extend_from_slice(b"-")
    }
}

/// The digit of a hedge's fault.
fn hedge_digit(fault: HedgeFault) -> &'static [u8]
    ensures { result.now ≡ hedge_digit fault }
{
    match fault {
        HedgeFault::Sets => b"1",
        HedgeFault::BigMissesX => b"2",
        HedgeFault::SmallMeetsX => b"3",
        HedgeFault::Choice(_) => b"4",
        HedgeFault::Link(_) => b"5",
        HedgeFault::Root(_) => b"6",
    }
}

/// Appends the vertex of a hedge's fault, where it has one.
fn push_at_vertex(out: &mut Vec<u8>, names: &Names, fault: HedgeFault) -> Result<(), AllocError>
    ensures { OnOk result (out.new.items ≡ out.old.items ++ at_vertex names.now fault) }
{
    match fault {
        HedgeFault::Sets | HedgeFault::BigMissesX | HedgeFault::SmallMeetsX => Ok(()),
        HedgeFault::Choice(v) | HedgeFault::Link(v) | HedgeFault::Root(v) => {
            out.extend_from_slice(b" at ")?;
            push_name_or_dash(out, names, v)
        }
    }
}

/// The text of a hedge that is refused.
pub fn hedge_text(alloc: Global, names: &Names, fault: HedgeFault) -> Result<Vec<u8>, AllocError>
    ensures { IfOk result (λ v. v.items ≡ hedge_text names.now fault) }
{
    let mut text = Vec::from_slice(alloc, b"refused: hedge fault ")?;
    text.extend_from_slice(hedge_digit(fault))?;
    push_at_vertex(&mut text, names, fault)?;
    text.push(b'\n')?;
    Ok(text)
}
