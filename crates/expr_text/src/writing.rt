//! Expressions and formulas written.

ghost use Rattle.std.specs.Prelude.{◌≡◌, ◌++◌, ◌+◌, OnOk, IfOk, codes, decimal, string_bytes, map};
ghost use Rattle.mixed_graph.specs.Vocabulary.{has};
ghost use Rattle.answer_text.specs.Vocabulary.{sign_text, set_in, term_in};
ghost use Rattle.prob_expr.specs.View.{view};
ghost use Rattle.prob_expr.specs.Vocabulary.{views, formula_view};
ghost use Rattle.expr_text.specs.Write.{parenthesized, factor_in, wrapped, quotient_in, name_of_def, expr_in, factors_in, defs_in, formula_in, text_of, formula_text, formula_latex};

use answer_text::{Notation, Sign, Term, push_set_in, push_sign, push_term_in};
use mixed_graph::{Names, VSet};
use prob_expr::{Expr, Formula};
use std::alloc::{AllocError, Global};

/// In which notation and with which names expressions are written.
#[derive(Drop)]
struct Writer<'n> {
    alloc: Global,
    notation: Notation,
    names: &'n Names,
}

/// Where a factor stands in its product.
#[derive(Clone, Copy)]
pub enum Place {
    First,
    Later,
}

/// Appends a term.
fn put_term(writer: &Writer, out: &mut Vec<u8>, term: Term) -> Result<(), AllocError>
    ensures { OnOk result (out.new.items ≡ out.old.items ++ term_in writer.now.notation writer.now.names.now (has term.of.bits) (has term.doing.bits) (has term.given.bits)) }
{
    push_term_in(out, writer.notation, writer.names, term)
}

/// Appends the sign of a sum and the set over which the sum is.
fn put_over(writer: &Writer, out: &mut Vec<u8>, over: VSet) -> Result<(), AllocError>
    ensures { OnOk result (out.new.items ≡ out.old.items ++ (sign_text writer.now.notation Sign.Sum ++ (set_in writer.now.notation writer.now.names.now over.bits ++ codes " "))) }
{
    push_sign(out, writer.notation, Sign::Sum)?;
    push_set_in(out, writer.notation, writer.names, over)?;
    out.extend_from_slice(b" ")?;
    Ok(())
}

/// The name of definition k.
fn name_of_def(alloc: Global, notation: Notation, k: usize) -> Result<String, AllocError>
    ensures { IfOk result (λ t. string_bytes t ≡ name_of_def notation k) }
{
    match notation {
        Notation::Plain => format!(in alloc; "q{k}"),
        Notation::Latex => format!(in alloc; "q_{{{k}}}"),
    }
}

/// Appends the name of definition k.
fn put_named(writer: &Writer, out: &mut Vec<u8>, k: usize) -> Result<(), AllocError>
    ensures { OnOk result (out.new.items ≡ out.old.items ++ name_of_def writer.now.notation k) }
{
    let text = name_of_def(writer.alloc, writer.notation, k)?;
    out.extend_from_slice(text.as_bytes())?;
    Ok(())
}

/// Appends an expression.
#[cycle(put)]
fn put_expr(writer: &Writer, out: &mut Vec<u8>, e: &Expr) -> Result<(), AllocError>
    ensures { OnOk result (out.new.items ≡ out.old.items ++ expr_in writer.now.notation writer.now.names.now (view e.now)) }
{
    match e {
        Expr::Prob { of, doing, given } => {
            let (of, doing, given) = (*of, *doing, *given);
            put_term(writer, out, Term { of, doing, given })
        }
        Expr::Sum { over, body } => {
            put_over(writer, out, *over)?;
            put_expr(writer, out, body)
        }
        Expr::Product(factors) => put_factors(writer, out, factors),
        Expr::Quotient { top, bottom } => match writer.notation {
            Notation::Plain => {
                put_operand(writer, out, top)?;
                out.extend_from_slice(b" / ")?;
                put_operand(writer, out, bottom)
            }
            Notation::Latex => {
                out.extend_from_slice(b"\\frac{")?;
                put_expr(writer, out, top)?;
                out.extend_from_slice(b"}{")?;
                put_expr(writer, out, bottom)?;
                out.extend_from_slice(b"}")?;
                Ok(())
            }
        },
        Expr::Named(k) => put_named(writer, out, *k as usize),
    }
}

/// Appends an expression as an operand.
#[cycle(put)]
fn put_operand(writer: &Writer, out: &mut Vec<u8>, e: &Expr) -> Result<(), AllocError>
    ensures { OnOk result (out.new.items ≡ out.old.items ++ wrapped writer.now.notation (view e.now) (expr_in writer.now.notation writer.now.names.now (view e.now))) }
{
    match e {
        Expr::Prob { .. } | Expr::Named(_) => put_expr(writer, out, e),
        _ => put_parenthesized(writer, out, e),
    }
}

/// Appends an expression in parentheses.
#[cycle(put)]
fn put_parenthesized(writer: &Writer, out: &mut Vec<u8>, e: &Expr) -> Result<(), AllocError>
    ensures { OnOk result (out.new.items ≡ out.old.items ++ parenthesized writer.now.notation (expr_in writer.now.notation writer.now.names.now (view e.now))) }
{
    push_sign(out, writer.notation, Sign::Open)?;
    put_expr(writer, out, e)?;
    push_sign(out, writer.notation, Sign::Close)?;
    Ok(())
}

/// Appends a product.
#[cycle(put)]
fn put_factors(writer: &Writer, out: &mut Vec<u8>, factors: &Vec<Expr>) -> Result<(), AllocError>
    ensures { OnOk result (out.new.items ≡ out.old.items ++ factors_in writer.now.notation Place.First writer.now.names.now (views factors.now.items)) }
{
    let mut place = Place::First;
    for factor in factors {
        put_factor(writer, out, place, factor)?;
        place = Place::Later;
    }
    Ok(())
}

/// Appends a factor, and before a later one the sign of a product.
#[cycle(put)]
fn put_factor(writer: &Writer, out: &mut Vec<u8>, place: Place, e: &Expr) -> Result<(), AllocError>
    ensures { OnOk result (out.new.items ≡ out.old.items ++ factor_in writer.now.notation place (wrapped writer.now.notation (view e.now) (expr_in writer.now.notation writer.now.names.now (view e.now)))) }
{
    match place {
        Place::First => put_operand(writer, out, e),
        Place::Later => {
            push_sign(out, writer.notation, Sign::Times)?;
            put_operand(writer, out, e)
        }
    }
}

/// The text of an expression.
pub fn write_expr(alloc: Global, e: &Expr, names: &Names) -> Result<Vec<u8>, AllocError>
    ensures { IfOk result (λ v. v.items ≡ text_of names.now (view e.now)) }
{
    let mut out = Vec::new(alloc);
    let writer = Writer {
        alloc,
        notation: Notation::Plain,
        names,
    };
    put_expr(&writer, &mut out, e)?;
    Ok(out)
}

/// Appends a line with a definition.
fn put_def(writer: &Writer, out: &mut Vec<u8>, k: usize, def: &Expr) -> Result<(), AllocError>
    ensures { OnOk result (out.new.items ≡ out.old.items ++ (codes "\n" ++ (name_of_def writer.now.notation k ++ (codes " = " ++ expr_in writer.now.notation writer.now.names.now (view def.now))))) }
{
    out.extend_from_slice(b"\n")?;
    put_named(writer, out, k)?;
    out.extend_from_slice(b" = ")?;
    put_expr(writer, out, def)?;
    Ok(())
}

/// Appends all definitions.
fn put_defs(writer: &Writer, out: &mut Vec<u8>, defs: &Vec<Expr>) -> Result<(), AllocError>
    ensures { OnOk result (out.new.items ≡ out.old.items ++ defs_in writer.now.notation writer.now.names.now 0 (map view defs.now.items)) }
{
    let mut k = 0;
    for def in defs {
        put_def(writer, out, k, def)?;
        k += 1;
    }
    Ok(())
}

/// Appends a formula in a notation.
pub fn push_formula_in(
    alloc: Global,
    out: &mut Vec<u8>,
    notation: Notation,
    f: &Formula,
    names: &Names,
) -> Result<(), AllocError>
    ensures { OnOk result (out.new.items ≡ out.old.items ++ formula_in notation names.now (formula_view f.now)) }
{
    let writer = Writer {
        alloc,
        notation,
        names,
    };
    put_expr(&writer, out, &f.main)?;
    put_defs(&writer, out, &f.defs)
}

/// A formula in a notation.
fn formula_in(
    alloc: Global,
    notation: Notation,
    f: &Formula,
    names: &Names,
) -> Result<Vec<u8>, AllocError>
    ensures { IfOk result (λ v. v.items ≡ formula_in notation names.now (formula_view f.now)) }
{
    let mut out = Vec::new(alloc);
    push_formula_in(alloc, &mut out, notation, f, names)?;
    Ok(out)
}

/// The text of a formula.
pub fn formula_text(alloc: Global, f: &Formula, names: &Names) -> Result<Vec<u8>, AllocError>
    ensures { IfOk result (λ v. v.items ≡ formula_text names.now (formula_view f.now)) }
{
    formula_in(alloc, Notation::Plain, f, names)
}

/// A formula as LaTeX.
pub fn latex_text(alloc: Global, f: &Formula, names: &Names) -> Result<Vec<u8>, AllocError>
    ensures { IfOk result (λ v. v.items ≡ formula_latex names.now (formula_view f.now)) }
{
    formula_in(alloc, Notation::Latex, f, names)
}
