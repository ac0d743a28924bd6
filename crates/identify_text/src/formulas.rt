//! The text of a formula with its target.

ghost use Rattle.std.specs.Prelude.{◌≡◌, ◌++◌, OnOk, IfOk};
ghost use Rattle.mixed_graph.specs.Vocabulary.{union, minus};
ghost use Rattle.prob_expr.specs.Vocabulary.{formula_view, target_view};
ghost use Rattle.expr_text.specs.Vocabulary.{text_of};
ghost use Rattle.identify_text.specs.Answers.{effect_term, free_beside, free_line, answer_in};

use answer_text::{Notation, push_set};
use expr_text::{push_formula_in, target_in, target_text};
use mixed_graph::{Names, VSet};
use prob_expr::{Formula, Target, free};
use std::alloc::{AllocError, Global};

/// The target P(y | do(x)).
fn effect(x: VSet, y: VSet) -> Target
    ensures what { result.y.bits ≡ y.bits }
    ensures doing { result.x.bits ≡ x.bits }
    ensures given { result.given.bits ≡ 0 }
{
    Target {
        x,
        y,
        given: VSet::EMPTY,
    }
}

/// The text of an effect.
pub fn effect_text(alloc: Global, x: VSet, y: VSet, names: &Names) -> Result<Vec<u8>, AllocError>
    ensures { IfOk result (λ v. v.items ≡ text_of names.now (effect_term x.bits y.bits)) }
{
    target_text(alloc, &effect(x, y), names)
}

/// Appends the line of the free variables, where there are some.
fn push_free(out: &mut Vec<u8>, names: &Names, free: VSet) -> Result<(), AllocError>
    ensures { OnOk result (out.new.items ≡ out.old.items ++ free_line names.now free.bits) }
{
    if free.is_empty() {
        return Ok(());
    }
    out.extend_from_slice(b"free ")?;
    push_set(out, names, free)?;
    out.push(b'\n')?;
    Ok(())
}

/// The free variables of a formula that are in none of the target's sets.
pub fn free_beside(alloc: Global, f: &Formula, target: &Target) -> Result<VSet, AllocError>
    ensures { IfOk result (λ s. s.bits ≡ free_beside (target_view target.now) (formula_view f.now)) }
{
    let all = free(alloc, f)?;
    let outside = all.difference(target.x.union(target.y));
    Ok(outside.difference(target.given))
}

/// The text of a target's formula, as `P(Y|do(X)) = sum{Z} P(Z) * P(Y|Z,X)`, or the same as LaTeX, and the line of the variables that are
/// free outside its sets, which is plain in both notations.
///
/// Each line ends with a line feed.
pub fn answer_in(
    alloc: Global,
    notation: Notation,
    f: &Formula,
    target: &Target,
    names: &Names,
) -> Result<Vec<u8>, AllocError>
    ensures { IfOk result (λ v. v.items ≡ answer_in notation names.now (target_view target.now) (formula_view f.now)) }
{
    let mut text = target_in(alloc, notation, target, names)?;
    text.extend_from_slice(b" = ")?;
    push_formula_in(alloc, &mut text, notation, f, names)?;
    text.push(b'\n')?;
    let free = free_beside(alloc, f, target)?;
    push_free(&mut text, names, free)?;
    Ok(text)
}
