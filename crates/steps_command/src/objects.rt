//! The object of a derivation, move by move.

ghost use Rattle.std.specs.Prelude.{◌≡◌, codes, map, IfOk, OnOk};
ghost use Rattle.prob_expr.specs.View.{view};
ghost use Rattle.prob_expr.specs.Vocabulary.{formula_view, target_view};
ghost use Rattle.expr_text.specs.Vocabulary.{latex_of};
ghost use Rattle.answer_json.specs.Vocabulary.{with_value, with_values, with_member, with_members, array_of};
ghost use Rattle.steps_command.specs.Objects.{expression_json, question_members, rule_json, asked_json, move_json, lemma_json, part_json, explained_members};

use answer_json::Object;
use certificate_json::{push_expr, push_step};
use derivation_steps::{AskedRule, Made, Part, Question};
use effect_answers::EffectFormula;
use effect_answers::objects::{push_formula, push_target};
use expr_text::latex_text;
use formula_json::push_tree;
use graph_json::push_graph;
use mixed_graph::Names;
use prob_expr::{Expr, Formula, copy_expr};
use std::alloc::{AllocError, Global};

/// An expression as LaTeX: a formula without definitions.
fn latex_of(alloc: Global, names: &Names, e: &Expr) -> Result<Vec<u8>, AllocError>
    ensures { IfOk result (λ v. v.items ≡ latex_of names.now (view e.now)) }
{
    let alone = Formula {
        defs: Vec::new(alloc),
        main: copy_expr(alloc, e)?,
    };
    latex_text(alloc, &alone, names)
}

/// An expression: its text, its LaTeX and its tree.
fn push_expression(object: &mut Object, names: &Names, e: &Expr) -> Result<(), AllocError>
    ensures { OnOk result (object.new ≡ with_value (expression_json names.now (view e.now)) object.old) }
{
    let latex = latex_of(object.alloc(), names, e)?;
    object.begin_object()?;
    object.key("text")?;
    push_expr(object, names, e)?;
    object.text_at("latex", latex.as_slice())?;
    object.key("tree")?;
    push_tree(object, names, e)?;
    object.end_object()?;
    Ok(())
}

/// The members of the number of a rule and of its sets.
fn push_question(object: &mut Object, names: &Names, q: Question) -> Result<(), AllocError>
    ensures { OnOk result (object.new ≡ with_members (question_members names.now q) object.old) }
{
    object.number_at("number", u64::from(q.rule.number()))?;
    object.set_at("y", names, q.y)?;
    object.set_at("z", names, q.z)?;
    object.set_at("do", names, q.doing)?;
    object.set_at("given", names, q.given)
}

/// A rule with its graph.
fn push_rule(object: &mut Object, names: &Names, asked: &AskedRule) -> Result<(), AllocError>
    ensures { OnOk result (object.new ≡ with_value (rule_json names.now asked.now) object.old) }
{
    object.begin_object()?;
    push_question(object, names, asked.question)?;
    object.key("graph")?;
    push_graph(object, names, &asked.graph)?;
    object.end_object()?;
    Ok(())
}

/// A rule for which a move asks, or null.
fn push_asked(
    object: &mut Object,
    names: &Names,
    asked: &Option<AskedRule>,
) -> Result<(), AllocError>
    ensures { OnOk result (object.new ≡ with_value (asked_json names.now asked.now) object.old) }
{
    match asked {
        None => object.null(),
        Some(asked) => push_rule(object, names, asked),
    }
}

/// A move.
fn push_move(object: &mut Object, names: &Names, made: &Made) -> Result<(), AllocError>
    ensures { OnOk result (object.new ≡ with_value (move_json names.now made.now) object.old) }
{
    object.begin_object()?;
    object.key("step")?;
    push_step(object, names, &made.step)?;
    object.key("rule")?;
    push_asked(object, names, &made.asked)?;
    object.key("after")?;
    push_expression(object, names, &made.after)?;
    object.end_object()?;
    Ok(())
}

/// Moves, one after another.
fn push_moves(object: &mut Object, names: &Names, moves: &[Made]) -> Result<(), AllocError>
    ensures { OnOk result (object.new ≡ with_values (map (move_json names.now) moves.now) object.old) }
{
    for made in moves {
        push_move(object, names, made)?;
    }
    Ok(())
}

/// The member of the moves.
#[tactic(auto, using(answer_json::proofs::Arrays::array_written))]
fn push_moves_at(object: &mut Object, names: &Names, moves: &[Made]) -> Result<(), AllocError>
    ensures { OnOk result (object.new ≡ with_member (codes "moves") (array_of (map (move_json names.now) moves.now)) object.old) }
{
    object.key("moves")?;
    object.begin_array()?;
    push_moves(object, names, moves)?;
    object.end_array()?;
    Ok(())
}

/// The number of a lemma, or null.
fn push_lemma(object: &mut Object, lemma: Option<usize>) -> Result<(), AllocError>
    ensures { OnOk result (object.new ≡ with_value (lemma_json lemma) object.old) }
{
    match lemma {
        None => object.null(),
        Some(number) => object.number(number as u64),
    }
}

/// A part.
fn push_part(object: &mut Object, names: &Names, part: &Part) -> Result<(), AllocError>
    ensures { OnOk result (object.new ≡ with_value (part_json names.now part.now) object.old) }
{
    object.begin_object()?;
    object.key("lemma")?;
    push_lemma(object, part.lemma)?;
    object.key("start")?;
    push_expression(object, names, &part.start)?;
    push_moves_at(object, names, &part.moves)?;
    object.end_object()?;
    Ok(())
}

/// Parts, one after another.
fn push_parts(object: &mut Object, names: &Names, parts: &[Part]) -> Result<(), AllocError>
    ensures { OnOk result (object.new ≡ with_values (map (part_json names.now) parts.now) object.old) }
{
    for part in parts {
        push_part(object, names, part)?;
    }
    Ok(())
}

/// The member of the parts.
#[tactic(auto, using(answer_json::proofs::Arrays::array_written))]
fn push_parts_at(object: &mut Object, names: &Names, parts: &[Part]) -> Result<(), AllocError>
    ensures { OnOk result (object.new ≡ with_member (codes "parts") (array_of (map (part_json names.now) parts.now)) object.old) }
{
    object.key("parts")?;
    object.begin_array()?;
    push_parts(object, names, parts)?;
    object.end_array()?;
    Ok(())
}

/// The members of a formula and of the parts of its derivation.
pub fn push_explained(
    object: &mut Object,
    names: &Names,
    f: &EffectFormula,
    parts: &Vec<Part>,
) -> Result<(), AllocError>
    ensures { OnOk result (object.new ≡ with_members (explained_members names.now (target_view f.now.target) (formula_view f.now.formula) parts.now.items) object.old) }
{
    object.word_at("answer", "explained")?;
    push_target(object, names, &f.target)?;
    push_formula(object, names, &f.target, &f.formula)?;
    push_parts_at(object, names, parts)
}
