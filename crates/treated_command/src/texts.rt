//! The texts of the answers.

ghost use Rattle.std.specs.Prelude.{◌≡◌, ◌++◌, IfOk, OnOk};
ghost use Rattle.std.specs.List.{flat_map};
ghost use Rattle.mixed_graph.specs.Vocabulary.{union};
ghost use Rattle.prob_expr.specs.Vocabulary.{term_of, formula_view, target_view};
ghost use Rattle.expr_text.specs.Vocabulary.{text_of};
ghost use Rattle.primed_names.specs.Vocabulary.{primed_names};
ghost use Rattle.treated_command.specs.Sentences.{target_of, joint_of, effect_text, step_text, confounding_text, formula_text, excluded_text, is_single, share_text, split_text, two_values_line, two_values_text, unfixed_text};

use crate::answer::Asked;
use answer_text::{Notation, push_vertex};
use counter_models::CounterPair;
use expr_text::target_text;
use hedge::Hedge;
use identify_text::{answer_in, effect_text as plain_effect_text, hedge_answer};
use mixed_graph::{Names, VSet};
use primed_names::primed_names;
use prob_expr::{Formula, Target};
use std::alloc::{AllocError, Global};
use told::Writing;
use treated_id::Confounding;

/// The effect that is asked for: x has its observed values at the primed names.
pub fn target_of(asked: Asked) -> Target
    ensures { target_view result ≡ target_of asked }
{
    Target {
        x: asked.sets.x,
        y: asked.sets.y,
        given: asked.sets.given.union(asked.primes),
    }
}

/// The outcomes of the joint effect: y and what is given.
pub fn joint_of(asked: Asked) -> VSet
    ensures { result.bits ≡ joint_of asked }
{
    asked.sets.y.union(asked.sets.given)
}

/// The effect that is asked for, as text.
pub fn effect_text(alloc: Global, names: &Names, asked: Asked) -> Result<Vec<u8>, AllocError>
    ensures { IfOk result (λ v. v.items ≡ effect_text names.now asked) }
{
    let all = primed_names(alloc, names, asked.sets.x)?;
    target_text(alloc, &target_of(asked), &all)
}

/// A formula.
pub fn formula_text(
    alloc: Global,
    names: &Names,
    asked: Asked,
    f: &Formula,
    writing: Writing,
) -> Result<Vec<u8>, AllocError>
    ensures { IfOk result (λ v. v.items ≡ formula_text writing names.now asked (formula_view f.now)) }
{
    let all = primed_names(alloc, names, asked.sets.x)?;
    answer_in(alloc, writing.notation(), f, &target_of(asked), &all)
}

/// Appends bidirected edges to each vertex of a path.
fn push_steps(out: &mut Vec<u8>, names: &Names, path: &[u8]) -> Result<(), AllocError>
    ensures { OnOk result (out.new.items ≡ out.old.items ++ flat_map (step_text names.now) path.now) }
{
    for v in path {
        push_step(out, names, *v)?;
    }
    Ok(())
}

/// Appends a bidirected edge to a vertex.
fn push_step(out: &mut Vec<u8>, names: &Names, v: u8) -> Result<(), AllocError>
    ensures { OnOk result (out.new.items ≡ out.old.items ++ step_text names.now v) }
{
    out.extend_from_slice(b" <-> ")?;
    push_vertex(out, names, v)?;
    Ok(())
}

/// Appends the line of a treatment that is confounded with a child of its own, as `X -> Y and Y <-> W <-> X`.
fn push_confounding(out: &mut Vec<u8>, names: &Names, c: &Confounding) -> Result<(), AllocError>
    ensures { OnOk result (out.new.items ≡ out.old.items ++ confounding_text names.now c.now) }
{
    push_vertex(out, names, c.treatment)?;
    out.extend_from_slice(b" -> ")?;
    push_vertex(out, names, c.child)?;
    out.extend_from_slice(b" and ")?;
    push_vertex(out, names, c.child)?;
    push_steps(out, names, c.path.as_slice())?;
    out.push(b'\n')?;
    Ok(())
}

/// That there is no formula, why, and the hedge of the joint effect with its two models.
pub fn excluded_text(
    alloc: Global,
    names: &Names,
    asked: Asked,
    c: &Confounding,
    h: &Hedge,
    pair: &CounterPair,
) -> Result<Vec<u8>, AllocError>
    ensures { IfOk result (λ v. v.items ≡ excluded_text names.now asked c.now h.now pair.now) }
{
    let mut text = effect_text(alloc, names, asked)?;
    text.extend_from_slice(b" is not identifiable\n")?;
    push_confounding(&mut text, names, c)?;
    let joint = hedge_answer(alloc, asked.sets.x, joint_of(asked), h, pair, names)?;
    text.extend_from_slice(joint.as_slice())?;
    Ok(text)
}

/// The treatment is one vertex.
pub fn is_single(asked: Asked) -> bool
    ensures { result ≡ is_single asked }
{
    asked.sets.x.count() == 1
}

/// What those whose other value of x was observed share in the joint effect, as `P(X') * P(Y|do(X),X')`.
fn share_text(alloc: Global, names: &Names, asked: Asked) -> Result<Vec<u8>, AllocError>
    ensures { IfOk result (λ v. v.items ≡ share_text names.now asked) }
{
    let all = primed_names(alloc, names, asked.sets.x)?;
    let observed = asked.sets.given.union(asked.primes);
    let mut text = plain_effect_text(alloc, VSet::EMPTY, observed, &all)?;
    text.extend_from_slice(b" * ")?;
    let effect = effect_text(alloc, names, asked)?;
    text.extend_from_slice(effect.as_slice())?;
    Ok(text)
}

/// How the joint effect is made up where x has two values, as `P(Y|do(X)) = P(X,Y) + P(X') * P(Y|do(X),X')`.
pub fn split_text(alloc: Global, names: &Names, asked: Asked) -> Result<Vec<u8>, AllocError>
    ensures { IfOk result (λ v. v.items ≡ split_text names.now asked) }
{
    let joint = joint_of(asked);
    let all = joint.union(asked.sets.x);
    let mut text = plain_effect_text(alloc, asked.sets.x, joint, names)?;
    text.extend_from_slice(b" = ")?;
    let observed = plain_effect_text(alloc, VSet::EMPTY, all, names)?;
    text.extend_from_slice(observed.as_slice())?;
    text.extend_from_slice(b" + ")?;
    let share = share_text(alloc, names, asked)?;
    text.extend_from_slice(share.as_slice())?;
    Ok(text)
}

/// The line of how the joint effect is made up, as `two values of X: P(Y|do(X)) = P(X,Y) + P(X') * P(Y|do(X),X')`.
fn two_values_line(
    alloc: Global,
    names: &Names,
    asked: Asked,
    c: &Confounding,
) -> Result<Vec<u8>, AllocError>
    ensures { IfOk result (λ v. v.items ≡ two_values_line names.now asked c.now) }
{
    let mut line = Vec::new(alloc);
    line.extend_from_slice(b"two values of ")?;
    push_vertex(&mut line, names, c.treatment)?;
    line.extend_from_slice(b": ")?;
    let split = split_text(alloc, names, asked)?;
    line.extend_from_slice(split.as_slice())?;
    line.push(b'\n')?;
    Ok(line)
}

/// Appends this line, for a treatment of one vertex.
fn push_two_values(
    out: &mut Vec<u8>,
    alloc: Global,
    names: &Names,
    asked: Asked,
    c: &Confounding,
) -> Result<(), AllocError>
    ensures { OnOk result (out.new.items ≡ out.old.items ++ two_values_text names.now asked c.now) }
{
    if !is_single(asked) {
        return Ok(());
    }
    let line = two_values_line(alloc, names, asked, c)?;
    out.extend_from_slice(line.as_slice())?;
    Ok(())
}

/// That there is no formula, why, and how the joint effect is made up where x has two values.
pub fn unfixed_text(
    alloc: Global,
    names: &Names,
    asked: Asked,
    c: &Confounding,
) -> Result<Vec<u8>, AllocError>
    ensures { IfOk result (λ v. v.items ≡ unfixed_text names.now asked c.now) }
{
    let mut text = effect_text(alloc, names, asked)?;
    text.extend_from_slice(b" is not identifiable\n")?;
    push_confounding(&mut text, names, c)?;
    push_two_values(&mut text, alloc, names, asked, c)?;
    Ok(text)
}
