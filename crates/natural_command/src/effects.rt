//! The effect that is asked for, as text.

ghost use Rattle.std.specs.Prelude.{ℕ, List, [], ◌∷◌, ◌≡◌, ◌++◌, IfOk, OnOk};
ghost use Rattle.natural_command.specs.Sentences.{list_text, group_text, under_text, given_text, effect_text, group_latex, given_latex, under_latex, effect_latex, effect_in};
ghost use Rattle.primed_names.specs.Vocabulary.{primed_names};

use crate::answer::Asked;
use answer_text::{Notation, push_set, push_set_in};
use mixed_graph::{Names, VSet};
use primed_names::primed_names;
use std::alloc::{AllocError, Global};

/// What stands between the first and the last byte.
fn inner(text: &[u8]) -> &[u8]
    ensures { (a b : ℕ) (s : List ℕ) → text.now ≡ a ∷ (s ++ b ∷ []) → result.now ≡ s }
{
    match text {
        [_, rest @ .., _] => rest,
        _ => text,
    }
}

/// Appends the names of a set with commas between them.
fn push_list(alloc: Global, out: &mut Vec<u8>, names: &Names, set: VSet) -> Result<(), AllocError>
    ensures { OnOk result (out.new.items ≡ out.old.items ++ list_text names.now set.bits) }
{
    let mut text = Vec::new(alloc);
    push_set(&mut text, names, set)?;
    out.extend_from_slice(inner(text.as_slice()))?;
    Ok(())
}

/// Appends the name of a set of one member, or any other set in braces.
pub fn push_group(
    alloc: Global,
    out: &mut Vec<u8>,
    names: &Names,
    set: VSet,
) -> Result<(), AllocError>
    ensures { OnOk result (out.new.items ≡ out.old.items ++ group_text names.now set.bits) }
{
    if set.count() == 1 {
        return push_list(alloc, out, names, set);
    }
    push_set(out, names, set)
}

/// Appends x, and the mediators as they are under the second value of x.
fn push_under(
    alloc: Global,
    out: &mut Vec<u8>,
    names: &Names,
    asked: Asked,
) -> Result<(), AllocError>
    ensures { OnOk result (out.new.items ≡ out.old.items ++ under_text names.now asked) }
{
    let all = primed_names(alloc, names, asked.question.x)?;
    push_list(alloc, out, names, asked.question.x)?;
    out.extend_from_slice(b",")?;
    push_group(alloc, out, names, asked.question.through)?;
    out.extend_from_slice(b"[")?;
    push_list(alloc, out, &all, asked.primes)?;
    out.extend_from_slice(b"]")?;
    Ok(())
}

/// Appends what is given behind a bar, where something is.
fn push_given(
    alloc: Global,
    out: &mut Vec<u8>,
    names: &Names,
    given: VSet,
) -> Result<(), AllocError>
    ensures { OnOk result (out.new.items ≡ out.old.items ++ given_text names.now given.bits) }
{
    if given.is_empty() {
        return Ok(());
    }
    out.extend_from_slice(b"|")?;
    push_list(alloc, out, names, given)
}

/// The effect as plain text.
pub fn effect_text(alloc: Global, names: &Names, asked: Asked) -> Result<Vec<u8>, AllocError>
    ensures { IfOk result (λ v. v.items ≡ effect_text names.now asked) }
{
    let mut out = Vec::from_slice(alloc, b"P(")?;
    push_group(alloc, &mut out, names, asked.question.y)?;
    out.extend_from_slice(b"[")?;
    push_under(alloc, &mut out, names, asked)?;
    out.extend_from_slice(b"]")?;
    push_given(alloc, &mut out, names, asked.question.given)?;
    out.extend_from_slice(b")")?;
    Ok(out)
}

/// Appends a set in LaTeX.
fn push_latex_group(out: &mut Vec<u8>, names: &Names, set: VSet) -> Result<(), AllocError>
    ensures { OnOk result (out.new.items ≡ out.old.items ++ group_latex names.now set.bits) }
{
    push_set_in(out, Notation::Latex, names, set)
}

/// Appends what is given in LaTeX, where something is.
fn push_latex_given(out: &mut Vec<u8>, names: &Names, given: VSet) -> Result<(), AllocError>
    ensures { OnOk result (out.new.items ≡ out.old.items ++ given_latex names.now given.bits) }
{
    if given.is_empty() {
        return Ok(());
    }
    out.extend_from_slice(b" \\mid ")?;
    push_latex_group(out, names, given)
}

/// Appends x, and the mediators under the second value of x, in LaTeX.
fn push_latex_under(
    alloc: Global,
    out: &mut Vec<u8>,
    names: &Names,
    asked: Asked,
) -> Result<(), AllocError>
    ensures { OnOk result (out.new.items ≡ out.old.items ++ under_latex names.now asked) }
{
    let all = primed_names(alloc, names, asked.question.x)?;
    push_latex_group(out, names, asked.question.x)?;
    out.extend_from_slice(b", ")?;
    push_latex_group(out, names, asked.question.through)?;
    out.extend_from_slice(b"_")?;
    push_latex_group(out, &all, asked.primes)
}

/// The effect in LaTeX.
fn effect_latex(alloc: Global, names: &Names, asked: Asked) -> Result<Vec<u8>, AllocError>
    ensures { IfOk result (λ v. v.items ≡ effect_latex names.now asked) }
{
    let mut out = Vec::from_slice(alloc, b"P(")?;
    push_latex_group(&mut out, names, asked.question.y)?;
    out.extend_from_slice(b"_{")?;
    push_latex_under(alloc, &mut out, names, asked)?;
    out.extend_from_slice(b"}")?;
    push_latex_given(&mut out, names, asked.question.given)?;
    out.extend_from_slice(b")")?;
    Ok(out)
}

/// The effect in a notation.
pub fn effect_in(
    alloc: Global,
    notation: Notation,
    names: &Names,
    asked: Asked,
) -> Result<Vec<u8>, AllocError>
    ensures { IfOk result (λ v. v.items ≡ effect_in notation names.now asked) }
{
    match notation {
        Notation::Plain => effect_text(alloc, names, asked),
        Notation::Latex => effect_latex(alloc, names, asked),
    }
}
