//! The text of a derivation, move by move.

ghost use Rattle.std.specs.Prelude.{◌≡◌, ◌++◌, IfOk, OnOk};
ghost use Rattle.std.specs.List.{flat_map};
ghost use Rattle.prob_expr.specs.View.{view};
ghost use Rattle.do_derivation.specs.Vocabulary.{step_view};
ghost use Rattle.steps_command.specs.Texts.{heading, expression_line, word_of, move_line, part_text, parts_text};

use derivation_steps::{Made, Part};
use do_derivation::Step;
use expr_text::write_expr;
use mixed_graph::Names;
use prob_expr::Expr;
use std::alloc::{AllocError, Global};

/// The heading of a part.
fn heading(alloc: Global, lemma: Option<usize>) -> Result<Vec<u8>, AllocError>
    ensures { IfOk result (λ v. v.items ≡ heading lemma) }
{
    match lemma {
        None => Vec::from_slice(alloc, b"main\n"),
        Some(number) => {
            let text = format!(in alloc; "lemma {number}\n")?;
            Vec::from_slice(alloc, text.as_bytes())
        }
    }
}

/// Appends an expression on a line.
fn push_expression(
    alloc: Global,
    out: &mut Vec<u8>,
    names: &Names,
    e: &Expr,
) -> Result<(), AllocError>
    ensures { OnOk result (out.new.items ≡ out.old.items ++ expression_line names.now (view e.now)) }
{
    let text = write_expr(alloc, e, names)?;
    out.extend_from_slice(text.as_slice())?;
    out.push(b'\n')?;
    Ok(())
}

/// The word of a move at its place.
fn word_of(step: &Step) -> &'static [u8]
    ensures { result.now ≡ word_of (step_view step.now) }
{
    match step {
        Step::Make(done) => done.word().as_bytes(),
        Step::At(_, inner) => word_of(inner),
        Step::Then(_) => b"",
    }
}

/// Appends the line of a move.
fn push_move(alloc: Global, out: &mut Vec<u8>, names: &Names, made: &Made) -> Result<(), AllocError>
    ensures { OnOk result (out.new.items ≡ out.old.items ++ move_line names.now made.now) }
{
    out.extend_from_slice(word_of(&made.step))?;
    out.extend_from_slice(b": ")?;
    push_expression(alloc, out, names, &made.after)
}

/// Appends the lines of moves.
fn push_moves(
    alloc: Global,
    out: &mut Vec<u8>,
    names: &Names,
    moves: &[Made],
) -> Result<(), AllocError>
    ensures { OnOk result (out.new.items ≡ out.old.items ++ flat_map (move_line names.now) moves.now) }
{
    for made in moves {
        push_move(alloc, out, names, made)?;
    }
    Ok(())
}

/// Appends the text of a part.
fn push_part(alloc: Global, out: &mut Vec<u8>, names: &Names, part: &Part) -> Result<(), AllocError>
    ensures { OnOk result (out.new.items ≡ out.old.items ++ part_text names.now part.now) }
{
    let first = heading(alloc, part.lemma)?;
    out.extend_from_slice(first.as_slice())?;
    push_expression(alloc, out, names, &part.start)?;
    push_moves(alloc, out, names, &part.moves)
}

/// Appends the texts of parts.
fn push_parts(
    alloc: Global,
    out: &mut Vec<u8>,
    names: &Names,
    parts: &[Part],
) -> Result<(), AllocError>
    ensures { OnOk result (out.new.items ≡ out.old.items ++ parts_text names.now parts.now) }
{
    for part in parts {
        push_part(alloc, out, names, part)?;
    }
    Ok(())
}

/// The text of parts.
pub fn parts_text(alloc: Global, names: &Names, parts: &Vec<Part>) -> Result<Vec<u8>, AllocError>
    ensures { IfOk result (λ v. v.items ≡ parts_text names.now parts.now.items) }
{
    let mut out = Vec::new(alloc);
    push_parts(alloc, &mut out, names, parts)?;
    Ok(out)
}
