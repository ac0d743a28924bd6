//! The texts of the answers.

ghost use Rattle.std.specs.Prelude.{◌≡◌, ◌++◌, IfOk, OnOk, Bool, false};
ghost use Rattle.std.specs.List.{flat_map};
ghost use Rattle.prob_expr.specs.View.{view};
ghost use Rattle.prob_expr.specs.Vocabulary.{formula_view, target_view};
ghost use Rattle.expr_text.specs.Vocabulary.{expr_in, formula_in, wrapped, parenthesized};
ghost use Rattle.mixed_graph.specs.Vocabulary.{has};
ghost use Rattle.answer_text.specs.Vocabulary.{term_in};
ghost use Rattle.natural_command.specs.Second.{names_read};
ghost use Rattle.natural_command.specs.Sentences.{district_effect, is_defined, operand_in, part_in, times_before, parts_in, summed_in, sum_in, over_in, body_in, equation_in, part_lines, no_path_text, indirect_line, direct_line, nil_lines, formula_text, joint_of, excluded_text, read_twice_text, reads_text, witness_text, split_text};

use crate::answer::Asked;
use crate::effects::{effect_in, effect_text};
use crate::second::names_read;
use answer_text::{
    Notation, Sign, Term, push_set, push_set_in, push_sign, push_term_in, push_vertex,
};
use counter_models::CounterPair;
use expr_text::{push_formula_in, target_in};
use hedge::Hedge;
use identify_text::{answer_in, effect_text as plain_effect_text, hedge_answer};
use mixed_graph::{Names, VSet};
use natural_id::{NaturalFormula, Part, Split, Witness};
use prob_expr::{Expr, Formula, Target};
use std::alloc::{AllocError, Global};
use told::Writing;

/// The outcomes of the joint effect: y and what is given.
pub fn joint_of(asked: Asked) -> VSet
    ensures { result.bits ≡ joint_of asked }
{
    asked.question.y.union(asked.question.given)
}

// ---- the formula

/// The effect of all other vertices on those of a district.
pub fn district_effect(names: &Names, part: &Part) -> Target
    ensures { target_view result ≡ district_effect names.now part.now }
{
    Target {
        x: VSet::below(names.count()).difference(part.district),
        y: part.district,
        given: VSet::EMPTY,
    }
}

/// Whether a formula has definitions.
pub fn is_defined(f: &Formula) -> bool
    ensures { result ≡ is_defined (formula_view f.now) }
{
    f.defs.len() != 0
}

/// Appends a formula as an operand.
fn push_wrapped(
    alloc: Global,
    out: &mut Vec<u8>,
    notation: Notation,
    names: &Names,
    f: &Formula,
) -> Result<(), AllocError>
    ensures { OnOk result (out.new.items ≡ out.old.items ++ wrapped notation (view f.now.main) (formula_in notation names.now (formula_view f.now))) }
{
    match &f.main {
        Expr::Prob { .. } | Expr::Named(_) => push_formula_in(alloc, out, notation, f, names),
        _ => push_parenthesized(alloc, out, notation, names, f),
    }
}

/// Appends a formula in parentheses.
fn push_parenthesized(
    alloc: Global,
    out: &mut Vec<u8>,
    notation: Notation,
    names: &Names,
    f: &Formula,
) -> Result<(), AllocError>
    ensures { OnOk result (out.new.items ≡ out.old.items ++ parenthesized notation (formula_in notation names.now (formula_view f.now))) }
{
    push_sign(out, notation, Sign::Open)?;
    push_formula_in(alloc, out, notation, f, names)?;
    push_sign(out, notation, Sign::Close)?;
    Ok(())
}

/// Appends the factor of a part's formula.
pub fn push_operand(
    alloc: Global,
    out: &mut Vec<u8>,
    notation: Notation,
    names: &Names,
    effect: &Target,
    f: &Formula,
) -> Result<(), AllocError>
    ensures { OnOk result (out.new.items ≡ out.old.items ++ operand_in notation names.now (target_view effect.now) (formula_view f.now)) }
{
    if is_defined(f) {
        let text = target_in(alloc, notation, effect, names)?;
        out.extend_from_slice(text.as_slice())?;
        return Ok(());
    }
    push_wrapped(alloc, out, notation, names, f)
}

/// Appends the factor of a part.
fn push_part(
    alloc: Global,
    out: &mut Vec<u8>,
    notation: Notation,
    names: &Names,
    x: VSet,
    part: &Part,
) -> Result<(), AllocError>
    ensures { OnOk result (out.new.items ≡ out.old.items ++ part_in notation names.now x.bits part.now) }
{
    let read = names_read(alloc, names, x, part.second)?;
    let effect = district_effect(names, part);
    push_operand(alloc, out, notation, &read, &effect, &part.formula)
}

/// The sign of a product, before a later factor.
fn times_before(notation: Notation, later: bool) -> &'static [u8]
    ensures { result.now ≡ times_before notation later }
{
    if later {
        notation.sign(Sign::Times)
    } else {
        b""
    }
}

/// Appends the parts as factors.
fn push_parts(
    alloc: Global,
    out: &mut Vec<u8>,
    notation: Notation,
    names: &Names,
    x: VSet,
    parts: &Vec<Part>,
) -> Result<(), AllocError>
    ensures { OnOk result (out.new.items ≡ out.old.items ++ parts_in notation false names.now x.bits parts.now.items) }
{
    let mut later = false;
    for part in parts {
        out.extend_from_slice(times_before(notation, later))?;
        push_part(alloc, out, notation, names, x, part)?;
        later = true;
    }
    Ok(())
}

/// Appends the sign of a sum over a set, where it isn't empty.
pub fn push_summed(
    out: &mut Vec<u8>,
    notation: Notation,
    names: &Names,
    set: VSet,
) -> Result<(), AllocError>
    ensures { OnOk result (out.new.items ≡ out.old.items ++ summed_in notation names.now set.bits) }
{
    if set.is_empty() {
        return Ok(());
    }
    push_sign(out, notation, Sign::Sum)?;
    push_set_in(out, notation, names, set)?;
    out.extend_from_slice(b" ")?;
    Ok(())
}

/// Appends the sum of the product.
fn push_sum(
    alloc: Global,
    out: &mut Vec<u8>,
    notation: Notation,
    names: &Names,
    asked: Asked,
    f: &NaturalFormula,
) -> Result<(), AllocError>
    ensures { OnOk result (out.new.items ≡ out.old.items ++ sum_in notation names.now asked f.now) }
{
    push_summed(out, notation, names, f.summed)?;
    push_parts(alloc, out, notation, names, asked.question.x, &f.parts)
}

/// Appends P(given).
fn push_condition(
    out: &mut Vec<u8>,
    notation: Notation,
    names: &Names,
    given: VSet,
) -> Result<(), AllocError>
    ensures { OnOk result (out.new.items ≡ out.old.items ++ term_in notation names.now (has given.bits) (has 0) (has 0)) }
{
    let (of, doing, given) = (given, VSet::EMPTY, VSet::EMPTY);
    push_term_in(out, notation, names, Term { of, doing, given })
}

/// Appends a text over P(given).
fn push_over(
    out: &mut Vec<u8>,
    notation: Notation,
    names: &Names,
    given: VSet,
    text: &[u8],
) -> Result<(), AllocError>
    ensures { OnOk result (out.new.items ≡ out.old.items ++ over_in notation names.now given.bits text.now) }
{
    match notation {
        Notation::Plain => {
            out.extend_from_slice(b"(")?;
            out.extend_from_slice(text)?;
            out.extend_from_slice(b") / ")?;
            push_condition(out, notation, names, given)
        }
        Notation::Latex => {
            out.extend_from_slice(b"\\frac{")?;
            out.extend_from_slice(text)?;
            out.extend_from_slice(b"}{")?;
            push_condition(out, notation, names, given)?;
            out.extend_from_slice(b"}")?;
            Ok(())
        }
    }
}

/// Appends the formula: the sum, over P(given) where something is given.
fn push_body(
    alloc: Global,
    out: &mut Vec<u8>,
    notation: Notation,
    names: &Names,
    asked: Asked,
    f: &NaturalFormula,
) -> Result<(), AllocError>
    ensures { OnOk result (out.new.items ≡ out.old.items ++ body_in notation names.now asked f.now) }
{
    if asked.question.given.is_empty() {
        return push_sum(alloc, out, notation, names, asked, f);
    }
    let mut text = Vec::new(alloc);
    push_sum(alloc, &mut text, notation, names, asked, f)?;
    push_over(out, notation, names, asked.question.given, text.as_slice())
}

/// The formula as plain text, without the effect before it.
pub fn body_text(
    alloc: Global,
    names: &Names,
    asked: Asked,
    f: &NaturalFormula,
) -> Result<Vec<u8>, AllocError>
    ensures { IfOk result (λ v. v.items ≡ body_in Notation.Plain names.now asked f.now) }
{
    let mut text = Vec::new(alloc);
    push_body(alloc, &mut text, Notation::Plain, names, asked, f)?;
    Ok(text)
}

/// The effect and its formula.
pub fn equation_in(
    alloc: Global,
    notation: Notation,
    names: &Names,
    asked: Asked,
    f: &NaturalFormula,
) -> Result<Vec<u8>, AllocError>
    ensures { IfOk result (λ v. v.items ≡ equation_in notation names.now asked f.now) }
{
    let mut text = effect_in(alloc, notation, names, asked)?;
    text.extend_from_slice(b" = ")?;
    push_body(alloc, &mut text, notation, names, asked, f)?;
    Ok(text)
}

/// Appends the lines of the effect of a part whose formula has definitions.
fn push_part_lines(
    alloc: Global,
    out: &mut Vec<u8>,
    notation: Notation,
    names: &Names,
    x: VSet,
    part: &Part,
) -> Result<(), AllocError>
    ensures { OnOk result (out.new.items ≡ out.old.items ++ part_lines notation names.now x.bits part.now) }
{
    if !is_defined(&part.formula) {
        return Ok(());
    }
    let read = names_read(alloc, names, x, part.second)?;
    let effect = district_effect(names, part);
    let lines = answer_in(alloc, notation, &part.formula, &effect, &read)?;
    out.extend_from_slice(lines.as_slice())?;
    Ok(())
}

/// Appends the lines of all parts whose formulas have definitions.
fn push_lines(
    alloc: Global,
    out: &mut Vec<u8>,
    notation: Notation,
    names: &Names,
    x: VSet,
    parts: &[Part],
) -> Result<(), AllocError>
    ensures { OnOk result (out.new.items ≡ out.old.items ++ flat_map (part_lines notation names.now x.bits) parts.now) }
{
    for part in parts {
        push_part_lines(alloc, out, notation, names, x, part)?;
    }
    Ok(())
}

// ---- what is nil

/// Appends the line that no directed path leads so from x to y, and what that says.
fn push_no_path(
    out: &mut Vec<u8>,
    names: &Names,
    asked: Asked,
    so: &[u8],
    what: &[u8],
) -> Result<(), AllocError>
    ensures { OnOk result (out.new.items ≡ out.old.items ++ no_path_text names.now asked so.now what.now) }
{
    out.extend_from_slice(b"no directed path leads from ")?;
    push_set(out, names, asked.question.x)?;
    out.extend_from_slice(so)?;
    push_set(out, names, asked.question.through)?;
    out.extend_from_slice(b" to ")?;
    push_set(out, names, asked.question.y)?;
    out.extend_from_slice(what)?;
    Ok(())
}

/// Appends the line that the indirect effect is nil, where it is.
fn push_indirect(out: &mut Vec<u8>, names: &Names, asked: Asked) -> Result<(), AllocError>
    ensures { OnOk result (out.new.items ≡ out.old.items ++ indirect_line names.now asked) }
{
    if asked.indirect {
        return Ok(());
    }
    push_no_path(
        out,
        names,
        asked,
        b" through ",
        b": the indirect effect is nil\n",
    )
}

/// Appends the line that the direct effect is nil, where it is.
fn push_direct(out: &mut Vec<u8>, names: &Names, asked: Asked) -> Result<(), AllocError>
    ensures { OnOk result (out.new.items ≡ out.old.items ++ direct_line names.now asked) }
{
    if asked.direct {
        return Ok(());
    }
    push_no_path(
        out,
        names,
        asked,
        b" past ",
        b": the direct effect is nil\n",
    )
}

/// Appends what is nil.
fn push_nil(out: &mut Vec<u8>, names: &Names, asked: Asked) -> Result<(), AllocError>
    ensures { OnOk result (out.new.items ≡ out.old.items ++ nil_lines names.now asked) }
{
    push_indirect(out, names, asked)?;
    push_direct(out, names, asked)
}

// ---- the answers

/// A formula, the lines of its parts with definitions, and what is nil.
pub fn formula_text(
    alloc: Global,
    names: &Names,
    asked: Asked,
    f: &NaturalFormula,
    writing: Writing,
) -> Result<Vec<u8>, AllocError>
    ensures { IfOk result (λ v. v.items ≡ formula_text writing names.now asked f.now) }
{
    let notation = writing.notation();
    let mut text = equation_in(alloc, notation, names, asked, f)?;
    text.extend_from_slice(b"\n")?;
    push_lines(
        alloc,
        &mut text,
        notation,
        names,
        asked.question.x,
        f.parts.as_slice(),
    )?;
    push_nil(&mut text, names, asked)?;
    Ok(text)
}

/// That there is no formula, the hedge of the joint effect with its two models, and what is nil.
pub fn excluded_text(
    alloc: Global,
    names: &Names,
    asked: Asked,
    h: &Hedge,
    pair: &CounterPair,
) -> Result<Vec<u8>, AllocError>
    ensures { IfOk result (λ v. v.items ≡ excluded_text names.now asked h.now pair.now) }
{
    let mut text = effect_text(alloc, names, asked)?;
    text.extend_from_slice(b" is not identifiable\n")?;
    let joint = hedge_answer(alloc, asked.question.x, joint_of(asked), h, pair, names)?;
    text.extend_from_slice(joint.as_slice())?;
    push_nil(&mut text, names, asked)?;
    Ok(text)
}

/// That there is no formula, the line of what reads both values of a treatment, and that the joint effect has a formula.
fn read_twice_text(
    alloc: Global,
    names: &Names,
    asked: Asked,
    reader: &[u8],
) -> Result<Vec<u8>, AllocError>
    ensures { IfOk result (λ v. v.items ≡ read_twice_text names.now asked reader.now) }
{
    let mut text = effect_text(alloc, names, asked)?;
    text.extend_from_slice(b" is not identifiable\n")?;
    text.extend_from_slice(reader)?;
    let joint = plain_effect_text(alloc, asked.question.x, joint_of(asked), names)?;
    text.extend_from_slice(joint.as_slice())?;
    text.extend_from_slice(b" is identifiable\n")?;
    Ok(text)
}

/// Appends that both values of a member of x are read.
fn push_reads(
    alloc: Global,
    out: &mut Vec<u8>,
    names: &Names,
    x: VSet,
    treatment: u8,
) -> Result<(), AllocError>
    ensures { OnOk result (out.new.items ≡ out.old.items ++ reads_text names.now x.bits treatment) }
{
    let second = names_read(alloc, names, x, x)?;
    out.extend_from_slice(b" reads ")?;
    push_vertex(out, names, treatment)?;
    out.extend_from_slice(b" and ")?;
    push_vertex(out, &second, treatment)?;
    out.extend_from_slice(b"\n")?;
    Ok(())
}

/// That there is no formula, and which vertex reads both values of a treatment.
pub fn witness_text(
    alloc: Global,
    names: &Names,
    asked: Asked,
    w: Witness,
) -> Result<Vec<u8>, AllocError>
    ensures { IfOk result (λ v. v.items ≡ witness_text names.now asked w) }
{
    let mut reader = Vec::new(alloc);
    push_vertex(&mut reader, names, w.child)?;
    push_reads(alloc, &mut reader, names, asked.question.x, w.treatment)?;
    read_twice_text(alloc, names, asked, reader.as_slice())
}

/// That there is no formula, and which district reads both values of a treatment.
pub fn split_text(
    alloc: Global,
    names: &Names,
    asked: Asked,
    s: Split,
) -> Result<Vec<u8>, AllocError>
    ensures { IfOk result (λ v. v.items ≡ split_text names.now asked s) }
{
    let mut reader = Vec::from_slice(alloc, b"district ")?;
    push_set(&mut reader, names, s.district)?;
    push_reads(alloc, &mut reader, names, asked.question.x, s.treatment)?;
    read_twice_text(alloc, names, asked, reader.as_slice())
}
